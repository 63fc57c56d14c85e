//! Laws of the definitions of runs. Each function does nothing: what it ensures is that there is such a run.
ghost use Rattle.run_examples.specs.Copied.{CopiedMessage};
ghost use Rattle.run_examples.specs.Stepped.{CopiedInSteps};

/// A message is copied: the hub makes a stream and stores a message, its leaf makes a mirror of the stream,
/// which asks, is bound, is sent the message and stores it under the same number.
pub fn a_message_is_copied()
    ensures { CopiedMessage }
{}

/// The same by steps of a hub and its leaf: what is asked, answered and sent is carried over their link.
pub fn a_message_is_copied_in_steps()
    ensures { CopiedInSteps }
{}
