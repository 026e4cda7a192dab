//! A device and what is told of its requests.
ghost use Rattle.std.specs.Prelude.{◌≡◌, ◌+◌, ◌^◌, ◌<◌, ℕ};
ghost use Rattle.std.specs.List.{AllByRecursion};
ghost use Rattle.disk_requests.specs.Steps.{HasRoom, IsSmall, blank, counted, with_issue, with_lone_done, with_served};

use crate::act::Disk;

/// How many numbers of binary digits are told apart: a latency has 0 to 62.
pub const DIGITS: usize = 63;

/// The requests of one device of a host. A request is an issue with its completion; its latency, in ns,
/// goes from one to the other. What has no partner is lone.
#[derive(Clone, Copy, Debug, PartialEq, Eq)]
pub struct Device {
    pub host: u32,
    /// The device number, as the kernel records it.
    pub dev: u32,
    /// How many requests there are.
    pub requests: u64,
    /// The sum of their sectors, as their issues tell them.
    pub sectors: u128,
    /// The sum of their latencies.
    pub total: u128,
    /// The least latency; 0 if there is no request.
    pub least: u64,
    /// The greatest one; 0 if there is no request.
    pub greatest: u64,
    pub lone_issues: u64,
    pub lone_dones: u64,
    /// At place k the number of requests whose latency has k binary digits. 0 has none.
    pub digits: [u64; DIGITS],
}

/// The issue of a request that isn't completed: its key, and how many sectors it asked for.
#[derive(Clone, Copy, Debug)]
pub struct Waiting {
    pub key: u64,
    pub sectors: u32,
}

impl Device {
    /// A device without requests.
    pub fn blank(disk: Disk) -> Device
        ensures { result ≡ blank disk }
    {
        Device {
            host: disk.host,
            dev: disk.dev,
            requests: 0,
            sectors: 0,
            total: 0,
            least: 0,
            greatest: 0,
            lone_issues: 0,
            lone_dones: 0,
            digits: [0; DIGITS],
        }
    }

    /// One more issue, which is lone so far.
    pub fn with_issue(self) -> Device
        requires { HasRoom self }
        ensures exact { result ≡ with_issue self }
        ensures small { (n : ℕ) → IsSmall n self → IsSmall (n + 1) result }
    {
        Device {
            lone_issues: self.lone_issues + 1,
            ..self
        }
    }

    /// One more completion, which is lone.
    pub fn with_lone_done(self) -> Device
        requires { HasRoom self }
        ensures exact { result ≡ with_lone_done self }
        ensures small { (n : ℕ) → IsSmall n self → IsSmall (n + 1) result }
    {
        Device {
            lone_dones: self.lone_dones + 1,
            ..self
        }
    }

    /// One of the lone issues is completed.
    pub fn with_served(self, sectors: u32, latency: u64) -> Device
        requires room { HasRoom self }
        requires waits { 0 < self.lone_issues }
        ensures exact { result ≡ with_served self sectors latency }
        ensures small { (n : ℕ) → IsSmall n self → IsSmall (n + 1) result }
    {
        let least = if self.requests == 0 {
            latency
        } else {
            self.least.min(latency)
        };
        Device {
            requests: self.requests + 1,
            sectors: self.sectors + u128::from(sectors),
            total: self.total + u128::from(latency),
            least,
            greatest: self.greatest.max(latency),
            lone_issues: self.lone_issues - 1,
            digits: counted(self.digits, latency),
            ..self
        }
    }
}

// One more latency, at the place of its number of binary digits.
fn counted(digits: [u64; DIGITS], latency: u64) -> [u64; DIGITS]
    requires { AllByRecursion (λ n. n + 1 < 2 ^ 64) digits }
    ensures { result ≡ counted 0 digits latency }
{
    let mut digits = digits;
    let place = (u64::BITS - latency.leading_zeros()) as usize;
    if place < DIGITS {
        digits[place] += 1;
    }
    digits
}
