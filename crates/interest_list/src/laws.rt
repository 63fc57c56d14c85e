//! Laws of the definitions that the contracts of this crate cite. Each function does nothing: what it
//! ensures holds of all that changes and tellings bring about.
ghost use Rattle.interest_list.specs.Taking.{NewsLeadToTold, WeightsAreTold};

/// Who takes the frames of LS+ and LS- that a link is told, behind those that it was told before, holds what the
/// link is to be told.
pub fn frames_lead_to_told()
    ensures { NewsLeadToTold }
{}

/// A plain pattern is told with the weight 1, and a group with 1 to 65,536.
pub fn told_weights()
    ensures { WeightsAreTold }
{}
