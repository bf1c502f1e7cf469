//! A list of entries, kept as progressions.

ghost use Rattle.std.specs.Prelude.{◌≡◌, ◌+◌, ◌<◌, ◌≤◌, ◌^◌, ◌++◌, ◌∷◌, [], IfOk, IsTrue, OnOk, length, slice_index_or, true, vec_len, vec_capacity};
ghost use Rattle.access_list.specs.Log.{IsPlaced, hit_on, hit};
ghost use Rattle.group_log.specs.Progressions.{AreProgressions, AreNext, entries_all, has_room};
ghost use Rattle.group_log.specs.declared.progression.Progression.{Progression as TheProgression};

use crate::progression::Progression;
use crate::rounds::tail_of;
use crate::stride::{EntryStride, is_same};
use access_list::{Entry, Hit, hit_between};
use clmodel::access::Rule;
use std::alloc::{AllocError, Global};
use std::marker::Model;

/// A list looks for rounds only once it keeps this many entries, so that a short list costs no search. These entries
/// and the next one take 56 KiB at most.
const SHORT: usize = 1023;

/// The entries of a log in their order, seen as a list. Entries that go on by equal strides, as the accesses of a loop
/// do, take memory for one round and its strides, however many rounds follow; each other entry takes some 56 bytes, and
/// so does each of the first 1,023. To add an entry takes a few steps, and looks at up to 64 earlier ones where none is
/// alike. To get an entry of the last progression takes a few steps; to get another one takes a binary search among
/// the progressions.
#[derive(Drop)]
pub struct Progressions {
    /// The entries of each progression's first round, in the order of the progressions; those of `last` stand at the
    /// end
    heads: Vec<Entry>,
    /// The strides of each progression with more than one round
    steps: Vec<EntryStride>,
    /// The progressions before the last
    closed: Vec<Progression>,
    /// The progression to which entries are added
    last: Progression,
}

impl Model for Progressions {
    ghost use Rattle.std.specs.Prelude.{◌++◌, ◌∷◌, []};
    ghost use Rattle.group_log.specs.Progressions.{Listed, entries_all, has_room, AreProgressions};

    ghost Value = { Listed };

    ghost view = { λ l. record { items = entries_all l.heads.items l.steps.items (l.closed.items ++ l.last ∷ []); has_room = has_room l.heads l.closed l.last } };

    ghost invariant = { λ l. AreProgressions l.heads.items l.steps.items l.closed.items l.last };
}

/// A progression of one round with one entry more, which is added to the kept ones.
#[inline(always)]
fn with_head(heads: &mut Vec<Entry>, progression: Progression, entry: Entry) -> Progression
    requires room { vec_len heads.old < vec_capacity heads.old }
    requires short { progression.count + 1 < 2 ^ 64 }
    requires plain { progression.period ≡ progression.count }
    ensures heads { heads.new.items ≡ heads.old.items ++ entry ∷ [] }
    ensures progression { result ≡ record progression { period = progression.period + 1; count = progression.count + 1 } }
{
    heads.push_reserved(entry);
    Progression {
        period: progression.period + 1,
        count: progression.count + 1,
        ..progression
    }
}

/// Adds an entry to a progression of one round, and to the kept ones.
#[inline(always)]
fn put_head(heads: &mut Vec<Entry>, progression: &mut Progression, entry: Entry)
    requires room { vec_len heads.old < vec_capacity heads.old }
    requires short { progression.old.count + 1 < 2 ^ 64 }
    requires plain { progression.old.period ≡ progression.old.count }
    ensures heads { heads.new.items ≡ heads.old.items ++ entry ∷ [] }
    ensures progression { progression.new ≡ record progression.old { period = progression.old.period + 1; count = progression.old.count + 1 } }
{
    heads.push_reserved(entry);
    progression.period += 1;
    progression.count += 1;
}

/// Makes a progression of its own of the newest entries, where they are three rounds of one, and closes that of the
/// entries before. The result is the progression to which entries are added.
fn folded(
    heads: &mut Vec<Entry>,
    steps: &mut Vec<EntryStride>,
    closed: &mut Vec<Progression>,
    last: Progression,
) -> Progression
    requires in_progressions { AreProgressions heads.old.items steps.old.items closed.old.items last }
    requires plain { last.count ≤ last.period }
    requires room { vec_len closed.old < vec_capacity closed.old }
    ensures in_progressions { AreProgressions heads.new.items steps.new.items closed.new.items result }
    ensures same { entries_all heads.new.items steps.new.items (closed.new.items ++ result ∷ []) ≡ entries_all heads.old.items steps.old.items (closed.old.items ++ last ∷ []) }
{
    let Some(progression) = tail_of(heads.as_slice(), steps, &last) else {
        return last;
    };
    heads.truncate(progression.head + progression.period);
    if last.start < progression.start {
        let count = progression.start - last.start;
        closed.push_reserved(Progression {
            period: count,
            count,
            ..last
        });
    }
    progression
}

/// Adds an entry to a list that isn't short, or whose last progression has more than one round. The result is the
/// progression to which entries are added.
#[inline(never)]
fn added_far(
    heads: &mut Vec<Entry>,
    steps: &mut Vec<EntryStride>,
    closed: &mut Vec<Progression>,
    last: Progression,
    entry: Entry,
) -> Progression
    requires in_progressions { AreProgressions heads.old.items steps.old.items closed.old.items last }
    requires room { has_room heads.old closed.old last ≡ true }
    ensures in_progressions { AreProgressions heads.new.items steps.new.items closed.new.items result }
    ensures more { entries_all heads.new.items steps.new.items (closed.new.items ++ result ∷ []) ≡ entries_all heads.old.items steps.old.items (closed.old.items ++ last ∷ []) ++ entry ∷ [] }
{
    if last.count <= last.period {
        let last = with_head(heads, last, entry);
        return folded(heads, steps, closed, last);
    }
    if is_same(
        &last.entry(heads.as_slice(), steps.as_slice(), last.count),
        &entry,
    ) {
        return Progression {
            count: last.count + 1,
            ..last
        };
    }
    closed.push_reserved(last);
    with_head(
        heads,
        Progression::empty(last.start + last.count, heads.len()),
        entry,
    )
}

/// Adds an entry to the last progression, or begins another. The first entries of a list are kept as they are, without
/// a call.
#[inline(always)]
fn add(
    heads: &mut Vec<Entry>,
    steps: &mut Vec<EntryStride>,
    closed: &mut Vec<Progression>,
    last: &mut Progression,
    entry: Entry,
)
    requires in_progressions { AreProgressions heads.old.items steps.old.items closed.old.items last.old }
    requires room { has_room heads.old closed.old last.old ≡ true }
    ensures in_progressions { AreProgressions heads.new.items steps.new.items closed.new.items last.new }
    ensures more { entries_all heads.new.items steps.new.items (closed.new.items ++ last.new ∷ []) ≡ entries_all heads.old.items steps.old.items (closed.old.items ++ last.old ∷ []) ++ entry ∷ [] }
{
    if last.count <= last.period && heads.len() < SHORT {
        put_head(heads, last, entry);
        return;
    }
    *last = added_far(heads, steps, closed, *last, entry);
}

/// Which of the progressions has entry i.
#[inline(never)]
fn progression_at(progressions: &[Progression], end: usize, i: usize) -> usize
    requires next { AreNext 0 progressions.now end }
    requires there { i < end }
    ensures inside { result < length progressions.now }
    ensures from { (d : TheProgression) → (slice_index_or progressions.now result d).start ≤ i }
    ensures before { (d : TheProgression) → i < (slice_index_or progressions.now result d).start + (slice_index_or progressions.now result d).count }
{
    let mut low = 0;
    let mut high = progressions.len();
    while low + 1 < high {
        let middle = low + (high - low) / 2;
        if progressions[middle].start <= i {
            low = middle;
        } else {
            high = middle;
        }
    }
    low
}

impl Progressions {
    /// No entries. It takes no memory.
    pub fn new(alloc: Global) -> Self
        ensures { result.items ≡ [] }
    {
        Progressions {
            heads: Vec::new(alloc),
            steps: Vec::new(alloc),
            closed: Vec::new(alloc),
            last: Progression::empty(0, 0),
        }
    }

    /// Forgets all entries, and keeps the memory.
    pub fn clear(&mut self)
        ensures { self.new.items ≡ [] }
    {
        self.heads.clear();
        self.steps.clear();
        self.closed.clear();
        self.last = Progression::empty(0, 0);
    }

    /// Whether less than an eighth of the memory is in use.
    pub fn is_roomy(&self) -> bool {
        self.heads.len() < self.heads.capacity() / 8
    }

    /// How many entries there are.
    pub fn len(&self) -> usize
        ensures { result ≡ length self.now.items }
    {
        self.last.start + self.last.count
    }

    /// Makes room for one entry more. An error is out of memory. The entries stay.
    pub fn reserve(&mut self) -> Result<(), AllocError>
        ensures room { OnOk result (self.new.has_room ≡ true) }
        ensures items { self.new.items ≡ self.old.items }
    {
        if self.len() >= usize::MAX - 1 {
            return Err(AllocError);
        }
        self.heads.reserve(1)?;
        self.closed.reserve(1)?;
        Ok(())
    }

    /// Adds an entry for which there is room.
    #[inline(always)]
    pub fn push_reserved(&mut self, entry: Entry)
        requires { self.old.has_room ≡ true }
        ensures { self.new.items ≡ self.old.items ++ entry ∷ [] }
    {
        add(
            &mut self.heads,
            &mut self.steps,
            &mut self.closed,
            &mut self.last,
            entry,
        );
    }

    /// The entry at a place.
    #[inline(always)]
    pub fn get(&self, i: usize) -> Entry
        requires { i < length self.now.items }
        ensures { result ≡ slice_index_or self.now.items i result }
    {
        let heads = self.heads.as_slice();
        let steps = self.steps.as_slice();
        if i >= self.last.start {
            return self.last.entry(heads, steps, i - self.last.start);
        }
        let progression = &self.closed[progression_at(self.closed.as_slice(), self.last.start, i)];
        progression.entry(heads, steps, i - progression.start)
    }

    /// The entries in a block of their own size. An error is out of memory.
    pub fn to_vec(&self, alloc: Global) -> Result<Vec<Entry>, AllocError>
        ensures { IfOk result (λ entries. entries.items ≡ self.now.items) }
    {
        let mut entries = Vec::with_capacity(alloc, self.len())?;
        for i in 0..self.len() {
            entries.push(self.get(i))?;
        }
        Ok(entries)
    }

    /// The conflict of an access on a byte with the earliest entry that has one.
    fn hit_on(&self, rule: Rule, x: &Entry, byte: u64) -> Option<Hit>
        ensures { result ≡ hit_on rule x.now byte self.now.items }
    {
        for i in 0..self.len() {
            if let Some(hit) = hit_between(rule, &self.get(i), x, byte) {
                return Some(hit);
            }
        }
        None
    }

    /// The conflict of an access with the entries by their rule: on its lowest byte that has one, there with the
    /// earliest.
    pub fn hit(&self, rule: Rule, x: &Entry) -> Option<Hit>
        requires { IsPlaced x.now }
        ensures { result ≡ hit rule x.now self.now.items }
    {
        let first = x.access.first;
        for byte in first..first + x.access.width.bytes() {
            if let Some(hit) = self.hit_on(rule, x, byte) {
                return Some(hit);
            }
        }
        None
    }
}
