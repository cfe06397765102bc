//! The id by which an application follows a message.

ghost use Rattle.std.specs.{Prelude.{◌≡◌, ◌≢◌, ◌<◌, ◌↔◌, ℕ, Some, IsNone, IfSome}, Fmt.{decimal}};

use std::fmt;
use std::marker::Model;

/// An application's own number for a message whose fate it wants to learn: any number but 0. Ids
/// are ordered by their numbers, and print as decimal ones.
#[derive(Clone, Copy, PartialEq, Eq, PartialOrd, Ord, Hash)]
pub struct LifecycleId(u64);

impl Model for LifecycleId {
    ghost Value = { ℕ };

    ghost view = { λ id. id.0 };

    ghost invariant = { λ id. 0 < id.0 };

    ghost inverse = { λ n. record { 0 = n } };
}

impl LifecycleId {
    /// Returns the id of number `n`; `None` if and only if `n` is 0.
    pub fn new(n: u64) -> Option<LifecycleId>
        ensures none { IsNone result ↔ (n ≡ 0) }
        ensures some { IfSome result (λ id. id ≡ n) }
    {
        if n == 0 { None } else { Some(LifecycleId(n)) }
    }

    /// Returns the id of number `n`, which isn't 0.
    pub fn from(n: u64) -> LifecycleId
        requires { n ≢ 0 }
        ensures { result ≡ n }
    {
        LifecycleId(n)
    }

    /// Returns the number, which is never 0.
    pub fn value(&self) -> u64
        ensures value { result ≡ self.now }
        ensures never_zero { 0 < result }
    {
        self.0
    }
}

impl fmt::Display for LifecycleId {
    ghost output = { λ id. Some (decimal id) };

    fn fmt<W: fmt::Write>(&self, f: &mut fmt::Formatter<W>) -> fmt::Result {
        let number = self.0;
        write!(f, "{number}")
    }
}

impl fmt::Debug for LifecycleId {
    ghost debug_output = { λ id. Some (decimal id) };

    fn fmt<W: fmt::Write>(&self, f: &mut fmt::Formatter<W>) -> fmt::Result {
        fmt::Display::fmt(self, f)
    }
}
