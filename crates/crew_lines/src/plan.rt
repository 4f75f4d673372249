// What the program prints of a plan. Each function writes at `at`, or at the front, and answers the place after what it wrote.
ghost use Rattle.memory.specs.Lent.{slices_in};
ghost use Rattle.std.specs.Prelude.{◌+◌, ◌≤◌, length};
ghost use Rattle.text.specs.Places.{Puts};
ghost use Rattle.crew_lines.specs.Plans.{crew_text, couriers_text, within_text, plan_text};

use crate::line::put_steps;
use crews::{crew_steps, least_crew};
use list_program::{put_named, put_refused};
use memory::PlanMemory;
use rule::MOST_BANKS;
use text::put_byte;

// What the program is asked: the day of so many couriers, or that of the fewest who end within so many steps.
#[derive(Clone, Copy)]
pub enum Question {
    Couriers(u16),
    Within(u16),
}

// The day of so many couriers, or the refusal.
fn put_day(out: &mut [u8], at: usize, plan: PlanMemory, couriers: u16) -> usize
    requires { at + 12288 ≤ length out.old }
    ensures { Puts (couriers_text couriers (slices_in plan.entry) plan.entry.tally) at out.old result out.new
        × (result ≤ length out.new) }
{
    let mut steps = [0u16; MOST_BANKS];
    match crew_steps(plan, couriers, &mut steps) {
        Ok(total) => put_steps(out, at, plan.waves, &steps, plan.tally.banks, total),
        Err(refusal) => put_refused(out, at, b"CREW ", couriers, u16::from(refusal)),
    }
}

// `CREW q`, at the front.
fn put_crew(out: &mut [u8], couriers: u16) -> usize
    requires { 11 ≤ length out.old }
    ensures { Puts (crew_text couriers) 0 out.old result out.new × (result ≤ 11) }
{
    let end = put_named(out, 0, b"CREW ", couriers);
    put_byte(out, end, b'\n')
}

// The fewest couriers who end within so many steps, and their day; or the refusal.
fn put_within(out: &mut [u8], plan: PlanMemory, limit: u16) -> usize
    requires { 12299 ≤ length out.old }
    ensures { Puts (within_text limit (slices_in plan.entry) plan.entry.tally) 0 out.old result out.new
        × (result ≤ length out.new) }
{
    match least_crew(plan, limit) {
        Ok(couriers) => {
            let next = put_crew(out, couriers);
            put_day(out, next, plan, couriers)
        }
        Err(refusal) => put_refused(out, 0, b"WITHIN ", limit, u16::from(refusal)),
    }
}

// What the program prints of a plan, at the front.
pub fn put_plan(out: &mut [u8], question: Question, plan: PlanMemory) -> usize
    requires { 12299 ≤ length out.old }
    ensures { Puts (plan_text question (slices_in plan.entry) plan.entry.tally) 0 out.old result out.new
        × (result ≤ length out.new) }
{
    match question {
        Question::Couriers(q) => put_day(out, 0, plan, q),
        Question::Within(limit) => put_within(out, plan, limit),
    }
}
