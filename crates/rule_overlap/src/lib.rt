//! The overlap rule of order 3 where tiles are not in order: whether two data bytes of a filetype clash, and the first entry that has such a byte.
//! An entry is one number here, its key: where it begins in a tile, times 16, plus its width. Keys in order are entries in the order of their bytes in a tile, so only neighbours need be compared.
//! Its buffers are arrays of the greatest length: no library here allocates.
#![tactic(auto)]

ghost use Rattle.std.specs.Prelude.{◌≡◌, ◌+◌, ◌*◌, ◌/◌, ◌%◌, ◌≤◌, ◌<◌, length};
ghost use Rattle.laws.specs.Search.{least_false, all};
ghost use Rattle.laws.specs.Lists.{nth};
ghost use Rattle.laws.specs.Parts.{front};
ghost use Rattle.view.specs.Parts.{max_extent, max_filetype_entries, ends_before, entry_clear, clear};
ghost use Rattle.view.specs.Types.{paper};
ghost use Rattle.rule_overlap.specs.Parts.{key_of, group_key, keys_apart, key_clear, keys_follow, KeysValid, EntriesReady, RecordReady};

use view::View;

// More than any width: a key is the place times this, plus the width. It is one number and no pair, since a sort of numbers compares and moves one for each entry.
const KEY_STEP: u64 = 16;

// The key of an entry of width `w` at displacement `d`.
fn key_of(w: u64, d: u64, extent: u64) -> u64
    requires { (0 < extent) × (extent ≤ max_extent) × (w < 16) }
    ensures { result ≡ key_of extent d w }
{
    d % extent * KEY_STEP + w
}

// Where the bytes of a key begin in a tile.
fn begin_of(key: u64) -> u64
    ensures { result ≡ key / 16 }
{
    key / KEY_STEP
}

// Where they end.
fn end_of(key: u64) -> u64
    ensures { result ≡ key / 16 + key % 16 }
{
    key / KEY_STEP + key % KEY_STEP
}

// The keys of a view's filetype, put at the front of `keys`.
// By index: three lists make one key, and `group_key` counts g·n + e.
fn put_groups(view: &View, keys: &mut [u64])
    requires { RecordReady view.now × (length keys.old ≡ max_filetype_entries) }
    ensures { keys.new ≡ front (group_key view.now) (view.now.numbers.filetype.instances * view.now.numbers.etype.entries) keys.old }
{
    let n = view.numbers.etype.entries as usize;
    let k = view.numbers.filetype.instances as usize;
    let extent = view.numbers.filetype.extent;
    for g in 0..k {
        for e in 0..n {
            let d = view.origins[g] + view.displacements[e];
            keys[g * n + e] = key_of(view.widths[e], d, extent);
        }
    }
}

// Whether the bytes of sorted keys end before the next ones begin, the last ones before the next tile's first.
// The extent goes beside the keys: a struct of one number would only be made for its invariant. So it does in `none_clash`, `key_clear` and `first_key`.
// `rule_entries::filetype_apart` asks the same of two lists, into which sorted keys would have to be taken apart first.
fn keys_follow(keys: &[u64], extent: u64) -> bool
    requires { (0 < length keys.now) × (extent ≤ max_extent) }
    ensures { result ≡ keys_follow extent keys.now }
{
    let last = keys.len() - 1;
    keys.is_sorted_by(|a, b| end_of(*a) <= begin_of(*b))
        && end_of(keys[last]) <= begin_of(keys[0]) + extent
}

// Whether no bytes of these keys clash, at a cost of the order of n log n. The keys are sorted.
fn none_clash(keys: &mut [u64], extent: u64) -> bool
    requires { KeysValid keys.old extent }
    ensures { (result ≡ all (key_clear extent keys.old) (length keys.old)) × (length keys.new ≡ length keys.old) }
{
    let mut spare = [0u64; View::MAX_FILETYPE_ENTRIES as usize];
    sorting::sort(keys, &mut spare);
    keys_follow(keys, extent)
}

// Whether no two data bytes of the view's filetype clash. For our own crates.
pub fn view_clear(view: &View) -> bool
    requires { RecordReady view.now }
    ensures { result ≡ clear (paper view.now) }
{
    let mut keys = [0u64; View::MAX_FILETYPE_ENTRIES as usize];
    put_groups(view, &mut keys);
    let total = (view.numbers.filetype.instances * view.numbers.etype.entries) as usize;
    none_clash(&mut keys[..total], view.numbers.filetype.extent)
}

// Whether the bytes of key `a` end before those of key `b` begin, and those before the next tile's first of key `a`.
#[tactic(auto, unfolding(view::specs::Parts::ends_before, laws::specs::Checks::also))]
fn ends_before(extent: u64, a: u64, b: u64) -> bool
    requires { extent ≤ max_extent }
    ensures { result ≡ ends_before extent (a / 16) (a % 16) (b / 16) (b % 16) }
{
    end_of(a) <= begin_of(b) && end_of(b) <= begin_of(a) + extent
}

// Whether no bytes of two keys clash.
#[tactic(auto, unfolding(crate::specs::Parts::keys_apart, view::specs::Parts::clear_of, laws::specs::Checks::either))]
fn keys_apart(extent: u64, a: u64, b: u64) -> bool
    requires { extent ≤ max_extent }
    ensures { result ≡ keys_apart extent a b }
{
    ends_before(extent, a, b) || ends_before(extent, b, a)
}

// Whether the bytes of key `i` clash neither with each other nor with those of an earlier key.
fn key_clear(keys: &[u64], i: usize, extent: u64) -> bool
    requires { (extent ≤ max_extent) × (i < length keys.now) }
    ensures { result ≡ key_clear extent keys.now i }
{
    let key = keys[i];
    let earlier = &keys[..i];
    key % KEY_STEP <= extent && earlier.iter().all(|other| keys_apart(extent, *other, key))
}

// The first key with a byte that clashes with itself or an earlier key, or the number of keys. Each pair may be compared.
// The number past the last stands for none, as `least_false` has it, on which `overlap_entry` rests.
fn first_key(keys: &[u64], extent: u64) -> usize
    requires { extent ≤ max_extent }
    ensures { result ≡ least_false (key_clear extent keys.now) (length keys.now) }
{
    let n = keys.len();
    (0..n).find(|i| !key_clear(keys, *i, extent)).unwrap_or(n)
}

// The first entry of a filetype with a byte that clashes with itself or an earlier entry, or the number of entries. Pairs are compared only where there is one. For our own crates.
// The number past the last stands for none, as `least_false` has it, on which `overlap_entry` rests.
pub fn first_clash(ws: &[u64], ds: &[u64], extent: u64) -> usize
    requires { EntriesReady ws.now ds.now extent }
    ensures { result ≡ least_false (entry_clear (nth ws.now) (nth ds.now) extent) (length ws.now) }
{
    let mut keys = [0u64; View::MAX_FILETYPE_ENTRIES as usize];
    let total = ws.len();
    // By index: of pairs by `zip` and `enumerate` the invariant is not given the index, and the proof did not close.
    for i in 0..total {
        keys[i] = key_of(ws[i], ds[i], extent);
    }
    let mut sorted = keys;
    if none_clash(&mut sorted[..total], extent) {
        return total;
    }
    first_key(&keys[..total], extent)
}
