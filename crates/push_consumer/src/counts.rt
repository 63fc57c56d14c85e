ghost use Rattle.std.specs.Prelude.{◌≡◌, ◌<◌, ◌+◌, ◌^◌, IfOk, OnOk, IsTrue, not};
ghost use Rattle.nats_text.specs.Sizes.{size};
ghost use Rattle.stream_fold.specs.declared.entry.Numbered.{Numbered};
ghost use Rattle.push_consumer.specs.Counts.{progress_in, IsSound};
ghost use Rattle.push_consumer.specs.Progress.{no_progress, outstanding, is_spent, latest_token, next_number, asks, delivered, requested, after_row, answered_by, stalled};

use nats_text::{Message, NoMemory};

/// How many bytes may be on their way without an answer: 1 MiB. The message that passes the window is
/// still sent.
const WINDOW: u64 = 1_048_576;

/// After how many bytes a flow request follows: 256 KiB, a quarter of the window.
const REQUEST: u64 = 262_144;

/// The most flow requests that can be unanswered: each stands for a quarter of the window or more.
const MOST: usize = 4;

/// How far a consumer has come. The first `held` of the parts are the bytes up to each flow request
/// that isn't answered yet, the oldest first.
#[derive(Clone, Copy, Debug)]
pub struct Counts {
    pub count: u64,
    pub last: u64,
    pub answered: u64,
    pub parts: [u64; MOST],
    pub held: usize,
    pub recent: u64,
}

impl Counts {
    /// Nothing was sent.
    pub fn new() -> Counts
        ensures progress { progress_in result ≡ no_progress }
        ensures sound { IsSound result }
    {
        Counts {
            count: 0,
            last: 0,
            answered: 0,
            parts: [0; MOST],
            held: 0,
            recent: 0,
        }
    }

    /// The bytes that were sent since the last flow request that was answered.
    pub fn outstanding(&self) -> u64
        requires { IsSound self.now }
        ensures { result ≡ outstanding (progress_in self.now) }
    {
        let unanswered: u64 = self.parts[..self.held].iter().sum();
        unanswered + self.recent
    }

    /// Whether the window is spent.
    pub fn is_spent(&self) -> bool
        requires { IsSound self.now }
        ensures { result ≡ is_spent (progress_in self.now) }
    {
        self.outstanding() >= WINDOW
    }

    /// The token of the last flow request.
    pub fn latest_token(&self) -> u64
        requires { IsSound self.now }
        ensures { result ≡ latest_token (progress_in self.now) }
    {
        self.answered + self.held as u64
    }

    /// The token that is awaited, where the window is spent.
    pub fn stalled(&self) -> Option<u64>
        requires { IsSound self.now }
        ensures { result ≡ stalled (progress_in self.now) }
    {
        if self.is_spent() {
            Some(self.latest_token())
        } else {
            None
        }
    }

    /// From which number on the next message is sought.
    pub fn next_number(&self, start: u64) -> Result<u64, NoMemory>
        ensures { IfOk result (λ number. number ≡ next_number start (progress_in self.now)) }
    {
        if self.count == 0 {
            Ok(start)
        } else {
            self.last.checked_add(1).ok_or(NoMemory)
        }
    }

    /// Counts a delivery, which the window lets pass. It fails where a sum would pass `2^64 - 1`.
    pub fn deliver(&mut self, seq: u64, message: &Message) -> Result<(), NoMemory>
        requires sound { IsSound self.old }
        ensures sound { OnOk result (IsSound self.new) }
        ensures held { OnOk result (self.new.held ≡ self.old.held) }
        ensures progress { OnOk result (progress_in self.new ≡ delivered (progress_in self.old) (record { seq = seq; message = message.now })) }
    {
        let room = u64::MAX - self.outstanding();
        let left = message.left_of(room).ok_or(NoMemory)?;
        self.count = self.count.checked_add(1).ok_or(NoMemory)?;
        self.last = seq;
        self.recent += room - left;
        Ok(())
    }

    /// Whether a flow request is due.
    pub fn asks(&self) -> bool
        ensures { result ≡ asks (progress_in self.now) }
    {
        self.recent >= REQUEST
    }

    /// Counts a flow request, and gives its token. It fails where the token would pass `2^64 - 1`.
    pub fn request(&mut self) -> Result<u64, NoMemory>
        requires sound { IsSound self.old }
        requires due { IsTrue (asks (progress_in self.old)) }
        requires room { self.old.held < 4 }
        ensures sound { OnOk result (IsSound self.new) }
        ensures progress { OnOk result (progress_in self.new ≡ requested (progress_in self.old)) }
        ensures token { IfOk result (λ token. token ≡ latest_token (progress_in self.old) + 1) }
    {
        let token = self.latest_token().checked_add(1).ok_or(NoMemory)?;
        self.parts[self.held] = self.recent;
        self.held += 1;
        self.recent = 0;
        Ok(token)
    }

    /// Takes the answer to a flow request, which answers those before it too. A token that isn't
    /// awaited changes nothing.
    pub fn answer(&mut self, token: u64)
        requires { IsSound self.old }
        ensures sound { IsSound self.new }
        ensures progress { progress_in self.new ≡ answered_by token (progress_in self.old) }
    {
        if token <= self.answered || self.latest_token() < token {
            return;
        }
        let gone = (token - self.answered) as usize;
        self.parts.rotate_left(gone);
        self.held -= gone;
        self.answered = token;
    }
}
