// Searches in a method's bytes for the transition of an SRM scan (`search_v63_transition` of scan_data.rs, and
// `flatv66_event_transition` of reader.rs). A record may start at any place, so every place is tested; the first that
// passes is the answer.
#![tactic(auto)]

ghost use Rattle.std.specs.Prelude.{◌≡◌, ◌+◌, ◌≤◌, length};
ghost use Rattle.srm_transition.specs.Transition.{in_range, narrow_window, is_near, is_between};
ghost use Rattle.srm_transition.specs.Transition.{v63_test, v63_at, search_v63_transition, event_test, flatv66_event_transition};
ghost use Rattle.parser.specs.Parser.{f64_at};

use float_bits::{absolute, f64_of_bits, is_finite};
use reader::{remaining, u32_at, u64_at};

// The place of the Q3 centre, and the bits of three f64 numbers.
#[derive(Clone, Copy)]
pub struct Transition {
    pub place: u64,
    pub q1: u64,
    pub q3_width: u64,
    pub collision_energy: u64,
}

// The place of the Q3 window's upper end, and the bits of Q1.
#[derive(Clone, Copy)]
pub struct EventTransition {
    pub place: u64,
    pub q1: u64,
}

// The f64 at a place.
pub fn f64_at(run: &[u8], at: u64) -> f64
    ensures { result ≡ f64_at run.now at }
{
    f64_of_bits(u64_at(run, at))
}

// A finite number from low to high, both included.
fn in_range(x: f64, low: f64, high: f64) -> bool
    ensures { result ≡ in_range low high x }
{
    is_finite(x) && low <= x && x <= high
}

// The test turned round would leave out a centre that is a NaN.
#[tactic(auto, unfolding(crate::specs::Transition::v63_test), using(crate::proofs::Constants::limits))]
fn v63_test(data: &[u8], j: u64, q3_center_target: f64) -> bool
    requires { (8 ≤ j) × (j + 32 ≤ length «data».now) }
    ensures { result ≡ v63_test q3_center_target «data».now j }
{
    if absolute(f64_at(data, j) - q3_center_target) > 0.002 {
        return false;
    }
    if !in_range(f64_at(data, j - 8), 50.0, 3000.0) {
        return false;
    }
    if !in_range(f64_at(data, j + 8), 0.01, 10.0) {
        return false;
    }
    in_range(f64_at(data, j + 24), 0.1, 300.0)
}

fn v63_at(data: &[u8], j: u64) -> Transition
    requires { (8 ≤ j) × (j + 32 ≤ length «data».now) }
    ensures { result ≡ v63_at «data».now j }
{
    Transition {
        place: j,
        q1: u64_at(data, j - 8),
        q3_width: u64_at(data, j + 8),
        collision_energy: u64_at(data, j + 24),
    }
}

pub fn search_v63_transition(data: &[u8], q3_center_target: f64) -> Option<Transition>
    ensures { result ≡ search_v63_transition q3_center_target «data».now }
{
    for j in 8..remaining(data, 32) {
        if v63_test(data, j, q3_center_target) {
            return Some(v63_at(data, j));
        }
    }
    None
}

// A Q3 window: its upper end is above the lower one by less than 0.1.
pub fn narrow_window(lo: f64, hi: f64) -> bool
    ensures { result ≡ narrow_window lo hi }
{
    lo < hi && hi - lo < 0.1
}

// Neither a distance of 0.002 nor a NaN is near.
fn is_near(x: f64, target: f64) -> bool
    ensures { result ≡ is_near x target }
{
    absolute(x - target) < 0.002
}

fn is_between(x: f64, low: f64, high: f64) -> bool
    ensures { result ≡ is_between low high x }
{
    low < x && x < high
}

fn event_test(data: &[u8], i: u64, event: u16, q3_hi: f64) -> bool
    requires { 24 ≤ i }
    ensures { result ≡ event_test event q3_hi «data».now i }
{
    let hi = f64_at(data, i);
    if !is_near(hi, q3_hi) {
        return false;
    }
    if !narrow_window(f64_at(data, i - 8), hi) {
        return false;
    }
    if u32_at(data, i - 24) != event as u32 {
        return false;
    }
    is_between(f64_at(data, i - 16), 10.0, 3000.0)
}

pub fn flatv66_event_transition(data: &[u8], event: u16, q3_hi: f64) -> Option<EventTransition>
    ensures { result ≡ flatv66_event_transition event q3_hi «data».now }
{
    for i in 24..remaining(data, 8) {
        if event_test(data, i, event, q3_hi) {
            return Some(EventTransition {
                place: i,
                q1: u64_at(data, i - 16),
            });
        }
    }
    None
}
