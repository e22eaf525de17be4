//! The record of a set, in a trace (docs/trace.md) and for the benchmark: the view that its body describes, set through a handle.
//! Its buffers are arrays of the greatest length: no library here allocates.
#![tactic(auto)]

ghost use Rattle.std.specs.Prelude.{ℕ, ◌≡◌, ◌+◌, ◌≤◌, ◌<◌, length, drop};
ghost use Rattle.laws.specs.Lists.{nth};
ghost use Rattle.file.specs.Parts.{set_view_answer};
ghost use Rattle.set_record.specs.Sets.{list_length, body_view, view_in, lists_end, representation_in};

use file::{Handle, SetViewAnswer};

// How many numbers of a body stand before its lists.
const FIRST_NUMBERS: usize = 8;

// The longest list: more numbers than a field's body holds.
const LONGEST_LIST: u64 = 8192;

// The length of the list that number `i` of a body counts.
#[tactic(auto, unfolding(crate::specs::Sets::list_length))]
fn list_length(body: &[u8], i: usize) -> usize
    ensures { (result ≡ list_length body.now i) × (result ≤ 8192) }
{
    tagged_fields::number(body, i).min(LONGEST_LIST) as usize
}

// The lengths of the four lists of a body, counted at its numbers 4 to 7.
fn list_lengths(body: &[u8]) -> [usize; 4]
    ensures { (k : ℕ) → k < 4 → (nth result k ≡ list_length body.now (4 + k)) × (nth result k ≤ 8192) }
{
    [4, 5, 6, 7].map(|i| list_length(body, i))
}

// Where the lists of a body end, in bytes: past the end of a body that is too short for them.
pub fn lists_end(body: &[u8]) -> usize
    ensures { result ≡ lists_end body.now }
{
    let [n1, n2, n3, n4] = list_lengths(body);
    tagged_fields::NUMBER_BYTES * (FIRST_NUMBERS + n1 + n2 + n3 + n4)
}

// Sets the view of four lists; the representation begins at byte `rest` of the body.
// The lists come one by one, as `Handle::set_view` has them.
fn set_lists(
    handle: Handle,
    body: &[u8],
    rest: usize,
    ew: &[u64],
    ed: &[i64],
    fw: &[u64],
    fd: &[i64],
) -> SetViewAnswer
    requires { rest ≤ length body.now }
    ensures { result ≡ set_view_answer handle (drop rest body.now) (body_view body.now ew.now ed.now fw.now fd.now) }
{
    let d = tagged_fields::signed_at(body, 1);
    let ex = tagged_fields::signed_at(body, 2);
    let fx = tagged_fields::signed_at(body, 3);
    handle.set_view(&body[rest..], d, ew, ed, ex, fw, fd, fx)
}

// Sets the view that the body describes.
pub fn set_view(handle: Handle, body: &[u8]) -> SetViewAnswer
    ensures { result ≡ set_view_answer handle (representation_in body.now) (view_in body.now) }
{
    let [n1, n2, n3, n4] = list_lengths(body);
    let second = FIRST_NUMBERS + n1;
    let third = second + n2;
    let fourth = third + n3;
    let rest = tagged_fields::bytes_after(body, fourth + n4);
    let mut ew = [0u64; LONGEST_LIST as usize];
    let mut ed = [0i64; LONGEST_LIST as usize];
    let mut fw = [0u64; LONGEST_LIST as usize];
    let mut fd = [0i64; LONGEST_LIST as usize];
    tagged_fields::numbers_into(body, FIRST_NUMBERS, n1, &mut ew);
    tagged_fields::signed_into(body, second, n2, &mut ed);
    tagged_fields::numbers_into(body, third, n3, &mut fw);
    tagged_fields::signed_into(body, fourth, n4, &mut fd);
    set_lists(
        handle,
        body,
        rest,
        &ew[..n1],
        &ed[..n2],
        &fw[..n3],
        &fd[..n4],
    )
}
