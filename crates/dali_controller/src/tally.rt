ghost use Rattle.std.specs.Prelude.{◌≡◌, ◌<◌};

use dali_frame::Random24;

/// What a survey has counted, and whose visits failed.
#[derive(Clone, Copy)]
pub struct Tally {
    /// How often gear were to draw new random addresses: at most three times.
    pub draws: u8,
    /// Whether the last roll call was silent.
    pub is_silent: bool,
    /// Whether a roll call heard gear since gear were to draw last.
    pub is_heard: bool,
    /// How many roll calls heard gear since a visit succeeded: 3 for more.
    pub calls: u8,
    /// How often short addresses were asked again because the block was full: at most six times.
    pub askings: u8,
    /// Whether a visit failed.
    pub is_missed: bool,
    /// Whose visit failed last.
    pub failed: Option<Random24>,
    /// Who was passed over since a visit succeeded.
    pub passed: Passed,
}

/// Random addresses that were passed over.
#[derive(Clone, Copy)]
pub struct Passed {
    /// The first eight of them, and `FFFFFF` in further places.
    pub numbers: [Random24; 8],
    /// How many there are: 255 for more.
    pub count: u8,
}

impl Passed {
    ghost use Rattle.dali_controller.specs.Tally.{with_passed};

    /// None.
    pub const NONE: Passed = Passed {
        numbers: [Random24::MASK; 8],
        count: 0,
    };

    /// One more.
    fn push(&mut self, number: Random24)
        ensures { self.new ≡ with_passed self.old number }
    {
        if self.count < 8 {
            self.numbers[usize::from(self.count)] = number;
        }
        self.count = self.count.saturating_add(1);
    }
}

impl Tally {
    ghost use Rattle.dali_controller.specs.Tally.{served, silent_call, heard_call, drew, drew_at_last};
    ghost use Rattle.dali_controller.specs.Tally.{asked_again, missed_by, passed_over};
    ghost use Rattle.dali_controller.specs.Next.{is_blocked, is_failed};

    /// As a survey begins.
    pub const NONE: Tally = Tally {
        draws: 0,
        is_silent: false,
        is_heard: false,
        calls: 0,
        askings: 0,
        is_missed: false,
        failed: None,
        passed: Passed::NONE,
    };

    /// The visit of the number whose visit failed last fails again.
    pub(crate) fn is_failed(&self, number: Random24) -> bool
        ensures { result ≡ is_failed self.now.failed number }
    {
        match self.failed {
            Some(failed) => failed == number,
            None => false,
        }
    }

    /// Some gear was passed over, and it heard gear in three roll calls since a visit succeeded.
    pub(crate) fn is_blocked(&self) -> bool
        ensures { result ≡ is_blocked self.now }
    {
        self.calls >= 3 && self.passed.count > 0
    }

    /// A visit succeeded.
    pub(crate) fn note_served(&mut self)
        ensures { self.new ≡ served self.old }
    {
        self.calls = 0;
        self.failed = None;
        self.passed = Passed::NONE;
    }

    /// A roll call was silent.
    pub(crate) fn note_silence(&mut self)
        ensures { self.new ≡ silent_call self.old }
    {
        self.is_silent = true;
    }

    /// A roll call heard gear.
    pub(crate) fn note_call(&mut self)
        ensures { self.new ≡ heard_call self.old }
    {
        self.is_silent = false;
        self.is_heard = true;
        if self.calls < 3 {
            self.calls += 1;
        }
    }

    /// Gear draw new random addresses.
    pub(crate) fn note_draw(&mut self)
        requires { self.old.draws < 3 }
        ensures { self.new ≡ drew self.old }
    {
        self.draws += 1;
        self.is_heard = false;
    }

    /// Gear draw new random addresses for the last time, and all else is counted anew.
    pub(crate) fn note_last_draw(&mut self)
        ensures { self.new ≡ drew_at_last self.old }
    {
        self.draws = 3;
        self.is_silent = false;
        self.is_heard = false;
        self.note_served();
    }

    /// Short addresses are asked again.
    pub(crate) fn note_asking(&mut self)
        requires { self.old.askings < 6 }
        ensures { self.new ≡ asked_again self.old }
    {
        self.askings += 1;
    }

    /// The visit of a number failed.
    pub(crate) fn note_miss(&mut self, number: Random24)
        ensures { self.new ≡ missed_by self.old number }
    {
        self.is_missed = true;
        self.failed = Some(number);
    }

    /// A number is passed over.
    pub(crate) fn note_passed(&mut self, number: Random24)
        ensures { self.new ≡ passed_over self.old number }
    {
        self.is_missed = true;
        self.failed = None;
        self.passed.push(number);
    }
}
