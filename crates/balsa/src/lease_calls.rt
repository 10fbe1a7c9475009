// The lease's calls for C and Rust.
ghost use Rattle.std.specs.Prelude.{◌≡◌};
ghost use Rattle.lease.specs.Lease.{begun, halted, heard_of, stored_of, release_of};
ghost use Rattle.balsa.specs.Releases.{release_reply};

use lease::{Lease, Release, Withheld};

// What asking for a release hands back: 0 yes, with the number up to which everything is held and the age of the head; 1 withdrawn; 2 undecided; 3 stale, with the age; 4 halted. What is not named is 0.
#[repr(C)]
#[derive(Clone, Copy)]
pub struct ReleaseReply {
    pub answer: u32,
    pub held: u64,
    pub age: u64,
}

// An answer in plain numbers.
impl From<Result<Release, Withheld>> for ReleaseReply {
    ghost from_gives = { λ answer r. r ≡ release_reply answer };

    fn from(answer: Result<Release, Withheld>) -> ReleaseReply {
        match answer {
            Ok(Release { held, age }) => ReleaseReply {
                answer: 0,
                held,
                age,
            },
            Err(Withheld::Withdrawn) => ReleaseReply {
                answer: 1,
                held: 0,
                age: 0,
            },
            Err(Withheld::Undecided) => ReleaseReply {
                answer: 2,
                held: 0,
                age: 0,
            },
            Err(Withheld::Stale { age }) => ReleaseReply {
                answer: 3,
                held: 0,
                age,
            },
            Err(Withheld::Halted) => ReleaseReply {
                answer: 4,
                held: 0,
                age: 0,
            },
        }
    }
}

// The lease of a follower that holds everything up to a number, and has heard nothing.
#[unsafe(no_mangle)]
pub extern "C" fn balsa_lease_new(held: u64) -> Lease
    ensures { result ≡ begun held }
{
    Lease::new(held)
}

// After a fault: halted for good.
#[unsafe(no_mangle)]
pub extern "C" fn balsa_lease_halt(lease: Lease) -> Lease
    ensures { result ≡ halted lease }
{
    lease.halt()
}

// A head was heard, asked for at a time.
#[unsafe(no_mangle)]
pub extern "C" fn balsa_lease_heard(lease: Lease, asked: u64, head: u64) -> Lease
    ensures { result ≡ heard_of lease asked head }
{
    lease.heard(asked, head)
}

// The withdrawal with a number was stored.
#[unsafe(no_mangle)]
pub extern "C" fn balsa_lease_stored(lease: Lease, number: u64) -> Lease
    ensures { result ≡ stored_of lease number }
{
    lease.stored(number)
}

// Whether a text may be released now, by the verdict on it.
#[unsafe(no_mangle)]
pub extern "C" fn balsa_lease_release(
    lease: Lease,
    now: u64,
    limit: u64,
    verdict: u32,
) -> ReleaseReply
    ensures { result ≡ release_reply (release_of lease now limit verdict) }
{
    ReleaseReply::from(lease.release(now, limit, verdict))
}
