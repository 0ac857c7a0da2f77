//! The lists of a seat's rows, as rings of links.

ghost use Rattle.std.specs.Prelude.{◌≡◌, ◌≢◌, ℕ, ◌+◌, ◌^◌, ◌<◌, ◌≤◌, ◌∷◌, ◌++◌, List, [], IsTrue, IsFalse, length};
ghost use Rattle.own_rows.specs.Opening.{IsAdded, IsUnused};
ghost use Rattle.own_rows.specs.Rings.{count, numbers};
ghost use Rattle.own_rows.specs.Rows.{AreMoved, AreSame, AreSwapped, HasRows, IsLinked, IsSound, Rows, alone, back_of, first_of, lost_of, named_hook, next_free, next_of, without};

/// The rows of a seat.
///
/// Each list is a ring, which begins and ends at its hook: a number behind those of the rows.
#[derive(Drop)]
pub struct OwnRows {
    /// The first of them, and how many they are.
    pub first: u32,
    pub rows: u32,
    /// The number that follows in its ring, and the one before.
    pub next: Vec<u32>,
    pub back: Vec<u32>,
    /// The bucket in whose word each row was published last.
    pub buckets: Vec<u32>,
    /// How often each row was published.
    pub generations: Vec<u64>,
    /// In which sweep each row was found gone.
    pub lost: Vec<u64>,
    /// The number of the sweep, from 1 on. It rises when a sweep frees rows.
    pub sweeps: u64,
}

impl OwnRows {
    // The number that follows, and the one before.
    #[inline(always)]
    fn after(&self, k: u32) -> u32
        requires sound { IsSound self.now }
        requires linked { IsLinked self.now k }
        ensures { result ≡ next_of self.now k }
    {
        self.next[(k - self.first) as usize]
    }

    #[inline(always)]
    fn before(&self, k: u32) -> u32
        requires sound { IsSound self.now }
        requires linked { IsLinked self.now k }
        ensures { result ≡ back_of self.now k }
    {
        self.back[(k - self.first) as usize]
    }

    // Two numbers change what they are linked to. In one ring it is cut in two there; two rings are made one.
    #[inline(always)]
    fn swap_links(&mut self, a: u32, b: u32)
        requires sound { IsSound self.old }
        requires a { IsLinked self.old a }
        requires b { IsLinked self.old b }
        ensures sound { IsSound self.new }
        ensures swapped { AreSwapped self.old self.new a b }
    {
        let x = self.after(a);
        let y = self.after(b);
        self.next[(a - self.first) as usize] = y;
        self.next[(b - self.first) as usize] = x;
        self.back[(x - self.first) as usize] = b;
        self.back[(y - self.first) as usize] = a;
    }

    // A row that is alone is put to the end of the named rows.
    pub(crate) fn name_new(&mut self, row: u32, bucket: u32)
        requires sound { IsSound self.old }
        requires row { IsLinked self.old row }
        ensures sound { IsSound self.new }
        ensures added { (r : Rows) → IsAdded self.old self.new r row }
        ensures rows { (r : Rows) → HasRows self.old r → IsUnused self.old r row →
            HasRows self.new (record r { named = r.named ++ (row, bucket) ∷ [] }) }
    {
        let last = self.before(self.first + self.rows + 1);
        self.swap_links(last, row);
        self.buckets[(row - self.first) as usize] = bucket;
    }

    // Or to that of the free rows.
    pub(crate) fn free_new(&mut self, row: u32)
        requires sound { IsSound self.old }
        requires row { IsLinked self.old row }
        ensures sound { IsSound self.new }
        ensures added { (r : Rows) → IsAdded self.old self.new r row }
        ensures rows { (r : Rows) → HasRows self.old r → IsUnused self.old r row →
            HasRows self.new (record r { free = r.free ++ row ∷ [] }) }
    {
        let last = self.before(self.first + self.rows);
        self.swap_links(last, row);
    }

    /// The row that a sweep looks at next, and its bucket.
    #[inline(always)]
    pub fn home(&self) -> Option<(u32, u32)>
        requires sound { IsSound self.now }
        ensures { (r : Rows) → HasRows self.now r → result ≡ first_of r.todo }
    {
        let hook = self.first + self.rows + 2;
        let row = self.after(hook);
        if row == hook {
            return None;
        }
        Some((row, self.buckets[(row - self.first) as usize]))
    }

    /// The row that is written next, and how often it was published.
    #[inline(always)]
    pub fn next_row(&self) -> Option<(u32, u64)>
        requires sound { IsSound self.now }
        ensures { (r : Rows) → HasRows self.now r → result ≡ next_free r r.free }
    {
        let hook = self.first + self.rows;
        let row = self.after(hook);
        if row == hook {
            return None;
        }
        Some((row, self.generations[(row - self.first) as usize]))
    }

    /// A sweep begins: it has still to look at all rows that are named by now.
    #[inline(always)]
    pub fn begin_sweep(&mut self)
        requires sound { IsSound self.old }
        ensures sound { IsSound self.new }
        ensures same { AreSame self.old self.new }
        ensures rows { (r : Rows) → HasRows self.old r → r.todo ≡ [] →
            HasRows self.new (record r { named = []; todo = r.named }) }
    {
        let todo = self.first + self.rows + 2;
        let named = self.first + self.rows + 1;
        self.swap_links(todo, named);
        let last = self.before(named);
        self.swap_links(last, named);
    }

    // Takes a row out of its ring, behind this number, and puts it to the end of those that are named.
    #[inline(always)]
    fn name_row(&mut self, back: u32, row: u32)
        requires sound { IsSound self.old }
        requires back { IsLinked self.old back }
        requires row { IsLinked self.old row }
        ensures sound { IsSound self.new }
        ensures same { AreSame self.old self.new }
        ensures moved { AreMoved self.old self.new back row (named_hook self.old) }
    {
        self.swap_links(back, row);
        let last = self.before(self.first + self.rows + 1);
        self.swap_links(last, row);
    }

    /// The row that the sweep looks at next still stands in the word of its bucket. So it stays named.
    #[inline(always)]
    pub fn keep_home(&mut self)
        requires sound { IsSound self.old }
        ensures sound { IsSound self.new }
        ensures same { AreSame self.old self.new }
        ensures rows { (r : Rows) (row : ℕ × ℕ) (todo : List (ℕ × ℕ)) → HasRows self.old r → r.todo ≡ row ∷ todo →
            HasRows self.new (record r { named = r.named ++ row ∷ []; todo = todo }) }
    {
        let hook = self.first + self.rows + 2;
        let row = self.after(hook);
        self.name_row(hook, row);
    }

    /// It is gone from there.
    #[inline(always)]
    pub fn lose_home(&mut self)
        requires sound { IsSound self.old }
        ensures sound { IsSound self.new }
        ensures same { AreSame self.old self.new }
        ensures rows { (r : Rows) (row : ℕ × ℕ) (todo : List (ℕ × ℕ)) → HasRows self.old r → r.todo ≡ row ∷ todo →
            HasRows self.new (record r { todo = todo; gone = row ∷ r.gone }) }
    {
        let hook = self.first + self.rows + 2;
        let gone = self.first + self.rows + 3;
        let row = self.after(hook);
        self.swap_links(hook, row);
        self.swap_links(gone, row);
        self.lost[(row - self.first) as usize] = self.sweeps;
    }

    // In which sweep a row was found gone.
    #[inline(always)]
    fn lost_in(&self, k: u32) -> u64
        requires sound { IsSound self.now }
        requires linked { IsLinked self.now k }
        ensures { result ≡ lost_of self.now k }
    {
        self.lost[(k - self.first) as usize]
    }

    // Whether a row is one of those that are gone.
    #[inline(always)]
    fn is_gone(&self, row: u64) -> bool
        requires sound { IsSound self.now }
        ensures mine { IsTrue result → (self.now.first ≤ row) × (row < self.now.first + self.now.rows) }
        ensures is { IsTrue result → (r : Rows) → HasRows self.now r → 1 ≤ count (numbers r.gone) row }
        ensures other { IsFalse result → (r : Rows) → HasRows self.now r → count (numbers r.gone) row ≡ 0 }
    {
        let first = self.first as u64;
        if row < first {
            return false;
        }
        if first + self.rows as u64 <= row {
            return false;
        }
        let lost = self.lost_in(row as u32);
        lost == self.sweeps
    }

    /// A seat holds this row. If it is one of those that are gone it stays named.
    #[inline(always)]
    pub fn keep_held(&mut self, held: u64)
        requires sound { IsSound self.old }
        ensures sound { IsSound self.new }
        ensures same { AreSame self.old self.new }
        ensures rows { (r : Rows) → HasRows self.old r →
            HasRows self.new (record r { named = r.named ++ alone held r.gone; gone = without held r.gone }) }
    {
        if !self.is_gone(held) {
            return;
        }
        let row = held as u32;
        let back = self.before(row);
        self.name_row(back, row);
        self.lost[(row - self.first) as usize] = 0;
    }

    /// The sweep is over: all rows that are gone are free at once.
    #[inline(always)]
    pub fn free_gone(&mut self)
        requires sound { IsSound self.old }
        requires few { self.old.sweeps < 2 ^ 63 }
        ensures sound { IsSound self.new }
        ensures first { self.new.first ≡ self.old.first }
        ensures count { self.new.rows ≡ self.old.rows }
        ensures sweeps { (r : Rows) → HasRows self.old r → self.new.sweeps ≤ self.old.sweeps + length r.gone }
        ensures rows { (r : Rows) → HasRows self.old r →
            HasRows self.new (record r { free = r.free ++ numbers r.gone; gone = [] }) }
    {
        let hook = self.first + self.rows;
        let gone = self.first + self.rows + 3;
        if self.after(gone) == gone {
            return;
        }
        let last = self.before(hook);
        self.swap_links(last, gone);
        let end = self.before(gone);
        self.swap_links(end, gone);
        self.sweeps += 1;
    }

    /// The first free row is published in the word of a bucket.
    #[inline(always)]
    pub fn publish(&mut self, bucket: u32, generation: u64)
        requires sound { IsSound self.old }
        ensures sound { IsSound self.new }
        ensures same { AreSame self.old self.new }
        ensures rows { (r : Rows) (row : ℕ) (free : List ℕ) (g : ℕ → ℕ) → HasRows self.old r → r.free ≡ row ∷ free →
            g row ≡ generation → ((k : ℕ) → k ≢ row → g k ≡ r.generation k) →
            HasRows self.new (record r { generation = g; free = free; named = r.named ++ (row, bucket) ∷ [] }) }
    {
        let hook = self.first + self.rows;
        let row = self.after(hook);
        self.name_row(hook, row);
        let at = (row - self.first) as usize;
        self.buckets[at] = bucket;
        self.generations[at] = generation;
    }
}
