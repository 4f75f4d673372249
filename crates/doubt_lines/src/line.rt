// The line of a doubted bank. Each function writes at `at`, or at the front, and answers the place after what it wrote.
ghost use Rattle.memory.specs.Lent.{slices_in};
ghost use Rattle.rule.specs.Refusals.{number_in};
ghost use Rattle.std.specs.Prelude.{◌≡◌, ◌+◌, ◌≤◌, ◌<◌, length, IfOk};
ghost use Rattle.direct_rule.specs.Calls.{direct_number, rule_wave_of};
ghost use Rattle.planner.specs.Calls.{plan_number, wave_of, clashes_of};
ghost use Rattle.text.specs.Places.{Puts};
ghost use Rattle.doubt_lines.specs.Lines.{lettered, head_text, from_text, link_text, links_text, line_of};

use direct_rule::{rule_wave_held, wave_by_rule};
use list_program::{put_named, put_refused};
use memory::{PlanMemory, is_earlier};
use planner::clashes_held;
use rule::{Bank, Refusal, Wave};
use text::{put_byte, put_text};
use wave_lines::letter;

// The most bytes of a line: the bank and its letters, 23 links of 13 bytes, and a line feed.
pub const LINE_BYTES: usize = 324;

// A text and a wave's letter.
fn put_lettered(out: &mut [u8], at: usize, text: &[u8], w: Wave) -> usize
    requires { (w.0 < 24) × (at + (length text.now + 1) ≤ length out.old) }
    ensures { Puts (lettered text.now w.0) at out.old result out.new }
{
    let next = put_text(out, at, text);
    put_byte(out, next, letter(w))
}

// An earlier neighbour with its letter.
fn put_from(out: &mut [u8], at: usize, v: u16, w: Wave) -> usize
    requires { (w.0 < 24) × (at + 13 ≤ length out.old) }
    ensures { Puts (from_text v w.0) at out.old result out.new }
{
    let next = put_named(out, at, b" FROM ", v);
    put_lettered(out, next, b" ", w)
}

// Neighbour v of bank b with its letter, read straight off, if it is earlier.
fn put_link(out: &mut [u8], at: usize, plan: PlanMemory, b: Bank, v: Bank) -> usize
    requires held { plan_number (slices_in plan) plan.tally ≡ 0 }
    requires few { plan.tally.banks ≤ 16 }
    requires are_banks { (v.0 < plan.tally.banks) × (b.0 < plan.tally.banks) }
    requires room { at + 13 ≤ length out.old }
    ensures { Puts (link_text b.0 (slices_in plan.entry) plan.entry.tally v.0) at out.old result out.new }
{
    if !is_earlier(plan.degrees, plan.ranks, v, b) {
        return at;
    }
    put_from(out, at, v.0, rule_wave_held(plan, v))
}

// The earlier neighbours of bank b with their letters.
fn put_links(out: &mut [u8], at: usize, plan: PlanMemory, b: Bank) -> usize
    requires held { plan_number (slices_in plan) plan.tally ≡ 0 }
    requires few { plan.tally.banks ≤ 16 }
    requires is_bank { b.0 < plan.tally.banks }
    requires room { at + 299 ≤ length out.old }
    ensures { Puts (links_text b.0 (slices_in plan.entry) plan.entry.tally (clashes_of b.0 (slices_in plan.entry) plan.entry.tally)) at out.old result out.new
        × (result ≤ at + 299) }
{
    let clashes = clashes_held(plan, b);
    let mut next = at;
    for &v in clashes {
        next = put_link(out, next, plan, b, Bank(v));
    }
    next
}

// The bank and its two letters, at the front.
fn put_head(out: &mut [u8], b: u16, kept: Wave, read: Wave) -> usize
    requires { (kept.0 < 24) × (read.0 < 24) × (24 ≤ length out.old) }
    ensures { Puts (head_text b kept.0 read.0) 0 out.old result out.new × (result ≤ 24) }
{
    let first = put_named(out, 0, b"BANK ", b);
    let second = put_lettered(out, first, b" KEPT ", kept);
    put_lettered(out, second, b" READ ", read)
}

// The wave of bank b as kept, and as read straight off.
fn both_waves(plan: PlanMemory, b: Bank) -> Result<(Wave, Wave), Refusal>
    ensures number { number_in result ≡ direct_number b.0 (slices_in plan.entry) plan.entry.tally }
    ensures waves { IfOk result (λ pair. (pair.0.0 ≡ wave_of b.0 (slices_in plan.entry) plan.entry.tally)
        × (pair.1.0 ≡ rule_wave_of b.0 (slices_in plan.entry) plan.entry.tally)) }
{
    let read = wave_by_rule(plan, b)?;
    let kept = Wave(plan.waves[usize::from(b.0)]);
    Ok((kept, read))
}

// The line of bank b, at the front.
pub fn put_line(out: &mut [u8], plan: PlanMemory, b: Bank) -> usize
    requires { 324 ≤ length out.old }
    ensures { Puts (line_of b.0 (slices_in plan.entry) plan.entry.tally) 0 out.old result out.new × (result ≤ length out.new) }
{
    match both_waves(plan, b) {
        Ok((kept, read)) => {
            let links = put_head(out, b.0, kept, read);
            let end = put_links(out, links, plan, b);
            put_byte(out, end, b'\n')
        }
        Err(refusal) => put_refused(out, 0, b"BANK ", b.0, u16::from(refusal)),
    }
}
