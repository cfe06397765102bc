//! How long something took, each time that it happened: of all the least, the median and the
//! greatest.

ghost use Rattle.std.specs.Prelude.{◌≡◌, ◌≤◌, ◌<◌, ◌+◌, ◌*◌, ◌/◌, replicate};
ghost use Rattle.dump_packet.specs.Buckets.{least_of, width_of, CountsOneIn, IsMedian};
ghost use Rattle.dump_packet.specs.Delays.{least_with, IsGreatest};
ghost use Rattle.dump_capture.specs.Number.{one_more};

use crate::count::increase;
use crate::packet_number::PacketNumber;
use crate::report::ReportWriter;

/// How many nanoseconds the unit of the buckets has.
const UNIT: u64 = 1_024;

/// How many octaves the buckets span, up to 68 seconds.
const OCTAVES: usize = 23;

/// How many buckets there are: 8 an octave.
const BUCKETS: usize = 192;

/// The delays of DATA or of messages, from when they were sent until they were acknowledged, up to
/// 2^64 - 1 of them.
#[derive(Drop)]
pub struct Delays {
    /// How many there were.
    pub count: u64,
    /// The least delay, in nanoseconds.
    pub least: u64,
    /// The greatest delay, in nanoseconds.
    pub greatest: u64,
    /// The TSN of the greatest delay.
    pub greatest_tsn: u32,
    /// The first packet that ended the greatest delay.
    pub greatest_packet: Option<PacketNumber>,
    buckets: [u32; BUCKETS],
}

impl Delays {
    /// Returns none.
    pub fn new() -> Delays
        ensures count { result.count ≡ 0 }
        ensures buckets { result.buckets ≡ replicate 192 0 }
    {
        Delays {
            count: 0,
            least: 0,
            greatest: 0,
            greatest_tsn: 0,
            greatest_packet: None,
            buckets: [0; BUCKETS],
        }
    }

    /// Counts the round trip of a TSN, or the delay of the message that begins with it.
    pub fn add(&mut self, nanoseconds: u64, tsn: u32, packet: PacketNumber)
        ensures count { self.new.count ≡ one_more self.old.count }
        ensures least { self.new.least ≡ least_with self.old nanoseconds }
        ensures greatest { IsGreatest self.old nanoseconds tsn packet self.new }
        ensures bucket { CountsOneIn (nanoseconds / 1024) self.old.buckets self.new.buckets }
    {
        if self.count == 0 || nanoseconds < self.least {
            self.least = nanoseconds;
        }
        if self.count == 0 || nanoseconds > self.greatest {
            self.greatest = nanoseconds;
            self.greatest_tsn = tsn;
            self.greatest_packet = Some(packet);
        }
        increase(&mut self.count);
        let bucket = bucket_of(nanoseconds / UNIT);
        self.buckets[bucket] = self.buckets[bucket].saturating_add(1);
    }

    /// Returns the median in nanoseconds, within 1/16 of it, or within 512 ns if it is below 16 us.
    /// If it is above 68 s, returns the greatest.
    pub fn median(&self) -> u64
        ensures { 0 < self.now.count → IsMedian self.now.buckets self.now.count self.now.least
            self.now.greatest result }
    {
        let half = self.count / 2 + self.count % 2;
        let mut passed: u64 = 0;
        for bucket in 0..BUCKETS - 1 {
            passed += u64::from(self.buckets[bucket]);
            if passed >= half {
                return middle_of(bucket).max(self.least).min(self.greatest);
            }
        }
        self.greatest
    }

    /// Writes the least after these words, the median, and the greatest with its TSN, up to the
    /// end of its brackets.
    pub fn write(&self, words: &str, writer: &mut ReportWriter<'_, '_>) {
        writer.seconds(words, "least", self.least);
        writer.seconds(", median ", "median", self.median());
        writer.seconds(", greatest ", "greatest", self.greatest);
        writer.value(" (tsn ", "greatest_tsn", self.greatest_tsn);
    }
}

/// Returns the bucket of a time in units: the first sixteen have one each, then an octave has
/// eight; the last one also has all longer times.
fn bucket_of(units: u64) -> usize
    ensures bounded { result < 192 }
    ensures from { least_of result ≤ units }
    ensures to { result < 191 → units < least_of (result + 1) }
{
    let mut rest = units;
    for octave in 0..OCTAVES {
        if rest < 16 {
            return octave * 8 + rest as usize;
        }
        rest /= 2;
    }
    BUCKETS - 1
}

/// Returns the middle of a bucket, in nanoseconds.
fn middle_of(bucket: usize) -> u64
    requires { bucket < 192 }
    ensures { result ≡ 1024 * least_of bucket + 512 * width_of bucket }
{
    let octave = (bucket / 8).saturating_sub(1);
    let first = (bucket - octave * 8) as u64;
    (UNIT * first + UNIT / 2) << octave
}
