// The acknowledgement of a space (RFC 9000, 19.3): a record written as an ACK frame of at most 32 runs. Its numbers are gathered in the order
// of the wire, five and two for each run but the first, and written as a row. docs/ACK.md has it for a lecture.
#![tactic(auto)]

ghost use Rattle.std.specs.Prelude.{◌≡◌, length};
ghost use Rattle.wire.specs.Writing.{writes};
ghost use Rattle.ring.specs.Bits.{marked};
ghost use Rattle.acks.specs.Ack.{ack_draft};
ghost use Rattle.acks.specs.Parts.{Below, Ranged, Framed};

use answers::Answer;
use records::Record;

// The gaps and lengths of the runs below a run whose lowest number is `low`, from the sixth number on; 31 runs at most. Tells how many numbers there are then.
fn ranges(seen: &Record, low: u64, numbers: &mut [u64; 67]) -> usize
    requires { Below (marked seen.now.words seen.now.top) low × (length numbers.old ≡ 67) }
    ensures { Ranged (marked seen.now.words seen.now.top) low numbers.old result numbers.new }
{
    let mut lowest = low;
    for i in 0..31 {
        let n = 5 + 2 * i;
        let Some(run) = ring::next_run(&seen.words, seen.top, lowest) else {
            return n;
        };
        numbers[n] = lowest - run.high - 2;
        numbers[n + 1] = run.high - run.low;
        lowest = run.low;
    }
    67
}

// All numbers of the frame; none if nothing is recorded.
fn frame(seen: &Record, delay: u64, numbers: &mut [u64; 67]) -> usize
    requires { length numbers.old ≡ 67 }
    ensures { Framed (marked seen.now.words seen.now.top) seen.now.top delay result numbers.new }
{
    let Some(run) = ring::next_run(&seen.words, seen.top, seen.top) else {
        return 0;
    };
    numbers[0] = 2;
    numbers[1] = run.high;
    numbers[2] = delay;
    numbers[4] = run.high - run.low;
    let count = ranges(seen, run.low, numbers);
    numbers[3] = (count as u64 - 5) / 2;
    count
}

// Writes the acknowledgement of a record at a place, with the delay that the caller names. A refusal leaves the output untouched.
#[tactic(auto, unfolding(crate::specs::Ack::ack_draft, records::specs::Marks::check_of, wire::specs::Writing::writes))]
pub fn write(seen: Record, delay: u64, out: &mut [u8], at: usize) -> Result<usize, Answer>
    ensures { (result, out.new) ≡ writes (ack_draft seen delay) out.old at }
{
    records::check_of(&seen)?;
    if seen.top == 0 {
        return Err(Answer::NothingToAcknowledge);
    }
    let mut numbers = [0u64; 67];
    let count = frame(&seen, delay, &mut numbers);
    row::write(out, at, &numbers[..count])
}
