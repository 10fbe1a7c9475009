// The lease: what a follower of a numbered feed of withdrawals has stored and heard, and whether it may release.
#![tactic(auto)]

ghost use Rattle.std.specs.Prelude.{◌≡◌, ◌-◌};
ghost use Rattle.lease.specs.Lease.{begun, halted, heard_of, stored_of, fresh_of, release_of};

// What is known of the feed. Any numbers are a lease.
#[repr(C)]
#[derive(Clone, Copy)]
pub struct Lease {
    // 0: no head was heard; 1: one was; any other: halted for good.
    // Stays: a number, as C hands the struct over by value, and any number is a phase.
    pub phase: u32,
    // Every withdrawal up to this number is stored.
    pub held: u64,
    // The newest head heard, and the time at which it was asked for.
    pub head: u64,
    pub asked: u64,
}

// A yes to "may this be released": everything up to the number is held, and the head was asked for so long ago.
#[derive(Clone, Copy, Debug, PartialEq, Eq)]
pub struct Release {
    pub held: u64,
    pub age: u64,
}

// Why it may not.
#[derive(Clone, Copy, Debug, PartialEq, Eq)]
pub enum Withheld {
    Withdrawn,
    Undecided,
    // No head that is young enough and wholly held.
    Stale { age: u64 },
    Halted,
}

impl Lease {
    // The lease of a follower that has stored the withdrawals up to a number, and heard nothing.
    pub fn new(held: u64) -> Lease
        ensures { result ≡ begun held }
    {
        Lease {
            phase: 0,
            held,
            head: 0,
            asked: 0,
        }
    }

    // After a fault: for good.
    pub fn halt(self) -> Lease
        ensures { result ≡ halted self }
    {
        Lease { phase: 2, ..self }
    }

    // A head was heard, asked for at a time. One below an earlier head or below what is held halts.
    pub fn heard(self, asked: u64, head: u64) -> Lease
        ensures { result ≡ heard_of self asked head }
    {
        if 1 < self.phase {
            return self.halt();
        }
        if head < self.head {
            return self.halt();
        }
        if head < self.held {
            return self.halt();
        }
        Lease {
            phase: 1,
            held: self.held,
            head,
            asked,
        }
    }

    // The withdrawal with a number was stored. Any number but the next halts.
    pub fn stored(self, number: u64) -> Lease
        ensures { result ≡ stored_of self number }
    {
        if 1 < self.phase {
            return self.halt();
        }
        if number <= self.held {
            return self.halt();
        }
        if number - self.held == 1 {
            Lease {
                held: number,
                ..self
            }
        } else {
            self.halt()
        }
    }

    // How long ago the newest head was asked for; 0 where that is to come.
    fn age(self, now: u64) -> u64
        ensures { result ≡ now - self.asked }
    {
        now.saturating_sub(self.asked)
    }

    // Whether the newest head is wholly held, and was asked for at most the limit ago.
    fn fresh(self, now: u64, limit: u64) -> bool
        ensures { result ≡ fresh_of self now limit }
    {
        if self.phase != 1 {
            return false;
        }
        if self.held < self.head {
            return false;
        }
        if now < self.asked {
            return false;
        }
        now - self.asked <= limit
    }

    // Whether a text may be released now, by the verdict of all that is held on it: 0 clear, 1 withdrawn, any other undecided.
    // Stays: a number, as each is a verdict; an enum would ask more of a caller.
    pub fn release(self, now: u64, limit: u64, verdict: u32) -> Result<Release, Withheld>
        ensures { result ≡ release_of self now limit verdict }
    {
        if 1 < self.phase {
            return Err(Withheld::Halted);
        }
        if verdict == 1 {
            return Err(Withheld::Withdrawn);
        }
        if verdict != 0 {
            return Err(Withheld::Undecided);
        }
        let age = self.age(now);
        if self.fresh(now, limit) {
            Ok(Release {
                held: self.held,
                age,
            })
        } else {
            Err(Withheld::Stale { age })
        }
    }
}
