//! Questions about filtersets and each possible test.
ghost use Rattle.std.specs.Prelude.{◌≡◌, ◌≢◌, ◌≤◌, ◌<◌, ℕ, IfNone, IfSome};
ghost use Rattle.filterset_deciding.specs.Question.{is_met};

/// A question about several filtersets and a test.
#[derive(Clone, Copy, Debug, PartialEq, Eq)]
pub enum Question {
    /// Whether all of them pick the test, or none does.
    AllAlike,
    /// Whether at least one of them picks the test.
    AtLeastOne,
    /// Whether at most one of them picks the test.
    AtMostOne,
    /// Whether exactly one of them picks the test.
    ExactlyOne,
}

impl Question {
    /// Returns the answer if `count` filtersets of `total` pick the test.
    pub fn is_met(self, count: usize, total: usize) -> bool
        ensures { result ≡ is_met self count total }
    {
        match self {
            Question::AllAlike => count == 0 || count == total,
            Question::AtLeastOne => count != 0,
            Question::AtMostOne => count <= 1,
            Question::ExactlyOne => count == 1,
        }
    }

    /// Returns the answer if it is the same for each count from `low` to `high`.
    pub(crate) fn settle(self, low: usize, high: usize, total: usize) -> Option<bool>
        requires within { high ≤ total }
        ensures settled { IfSome result (λ answer.
            (count : ℕ) → low ≤ count → count ≤ high → is_met self count total ≡ answer) }
        ensures opened { IfNone result (low ≢ high) }
    {
        match self {
            Question::AllAlike => {
                if high == 0 || low == total {
                    Some(true)
                } else if low >= 1 && high < total {
                    Some(false)
                } else {
                    None
                }
            }
            Question::AtLeastOne => {
                if low >= 1 {
                    Some(true)
                } else if high == 0 {
                    Some(false)
                } else {
                    None
                }
            }
            Question::AtMostOne => {
                if high <= 1 {
                    Some(true)
                } else if low >= 2 {
                    Some(false)
                } else {
                    None
                }
            }
            Question::ExactlyOne => {
                if low == 1 && high == 1 {
                    Some(true)
                } else if low >= 2 || high == 0 {
                    Some(false)
                } else {
                    None
                }
            }
        }
    }
}
