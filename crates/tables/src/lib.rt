// The records of a file, read one after the other into a catalog: answers 1 to 6 and 19. Only `value` reads an attribute value.
#![tactic(auto)]

ghost use Rattle.std.specs.Prelude.{◌≡◌, true, ◌∷◌, ◌++◌, List, [], not, ◌+◌, ◌*◌, ◌<◌, ◌≤◌, length, drop};
ghost use Rattle.semantics.specs.Files.{Table, word_at, table_with, column_start, copy_bytes, copies_out, next_table, plan_record};
ghost use Rattle.semantics.specs.Shapes.{output_fits};
ghost use Rattle.theory.specs.Rules.{Fitting};
ghost use Rattle.tables.specs.Catalogs.{catalog_of, entry_of, end_of, table_of, limited_table, record_of, contents_of};
ghost use Rattle.tables.specs.Catalogs.{file_width, AttributesTogether};
ghost use Rattle.tables.specs.Copies.{copies_start, CopiesBefore, copies_in, CopyInside};

use refusals::{Reason, Refusal};

// The tables of a file, in file order: `starts` has the offsets of their first attribute columns, and bit t of `counted` says that
// table t has a column of copies. The places past the last table are 0. An array for each field: `mending::mend`,
// `elimination::find_plan` and `scheduling::schedule_of` are lent masks and rows so, and the clause of `copies_at` names the bits.
#[derive(Clone, Copy, Debug, PartialEq, Eq)]
pub struct Catalog {
    pub count: usize,
    pub masks: [u32; 16],
    pub rows: [usize; 16],
    pub starts: [usize; 16],
    pub counted: usize,
}

// What the reading of a file gives: the tables before its end, and the end, which is the offset of the plan's bytes, the last ones of
// the file, or a refusal.
#[derive(Clone, Copy, Debug, PartialEq, Eq)]
pub struct Contents {
    pub catalog: Catalog,
    pub end: Result<usize, Refusal>,
}

// A table, as a catalog enters it, and the bytes of its record.
#[derive(Clone, Copy)]
struct Entry {
    mask: u32,
    rows: usize,
    start: usize,
    counted: bool,
    size: usize,
}

// One record: a table, or the plan, whose bytes run from this offset to the file's end.
#[derive(Clone, Copy)]
enum Record {
    Table(Entry),
    Plan(usize),
}

impl Catalog {
    // A catalog of no table.
    fn new() -> Catalog
        ensures { result ≡ catalog_of [] }
    {
        Catalog {
            count: 0,
            masks: [0; 16],
            rows: [0; 16],
            starts: [0; 16],
            counted: 0,
        }
    }

    // Enters a table behind the others.
    fn enter(&mut self, entry: Entry)
        requires { self.old.count < 16 }
        ensures { (ts : List Table) → (t : Table) → self.old ≡ catalog_of ts → entry ≡ entry_of t entry.size
            → self.new ≡ catalog_of (ts ++ (t ∷ [])) }
    {
        let n = self.count;
        self.masks[n] = entry.mask;
        self.rows[n] = entry.rows;
        self.starts[n] = entry.start;
        self.counted |= usize::from(entry.counted) << n;
        self.count = n + 1;
    }
}

// The refusal for that reason, whose detail is an offset of the file.
fn refusal(reason: Reason, at: usize) -> Refusal
    ensures { result ≡ record { reason = reason; detail = at } }
{
    Refusal { reason, detail: at }
}

// The plan record whose mark stands at an offset, and the offset of the plan's bytes: 1, then 6.
fn plan_record(file: &[u8], at: usize) -> Result<usize, Refusal>
    requires { at + 2 ≤ length file.now }
    ensures { result ≡ end_of (length file.now) (plan_record at (drop at file.now)) }
{
    let left = file.len() - at;
    if left < 3 {
        return Err(refusal(Reason::CutOff, at));
    }
    let size = 3 + words::index(file[at + 2]);
    if left < size {
        return Err(refusal(Reason::CutOff, at));
    }
    if size < left {
        return Err(refusal(Reason::BehindPlan, at + size));
    }
    Ok(at + 3)
}

// The fewest copies that a row can have.
const FEWEST_COPIES: u32 = 1;

// The most copies that a row can have.
const MOST_COPIES: u32 = 65535;

// Every row of a column of copies has 1 to 65,535 of them.
fn copies_fit(column: &[u8], rows: usize) -> bool
    requires { (rows ≤ 4096) × (4 * rows ≤ length column.now) }
    ensures { result ≡ not (copies_out true (λ y. word_at column.now (4 * y)) rows) }
{
    (0..rows).all(|row| (FEWEST_COPIES..=MOST_COPIES).contains(&words::word(column, 4 * row)))
}

// The bytes of the column of copies of a table that has that many rows.
fn copy_bytes(counted: bool, rows: usize) -> usize
    requires { rows ≤ 4096 }
    ensures { result ≡ copy_bytes counted rows }
{
    if counted { 4 * rows } else { 0 }
}

// The table record whose mark stands at an offset: both fields there (1), 3, 4, columns there (1), copies in range (19).
fn table_record(file: &[u8], at: usize, counted: bool) -> Result<Entry, Refusal>
    requires { at + 2 ≤ length file.now }
    ensures { result ≡ table_of at (next_table counted at (drop at file.now)) }
{
    let left = file.len() - at;
    if left < 10 {
        return Err(refusal(Reason::CutOff, at));
    }
    let mask = words::word(file, at + 2);
    let rows = words::word(file, at + 6) as usize;
    let arity = words::ones(mask) as usize;
    if arity == 0 || 8 < arity {
        return Err(refusal(Reason::AttributeCount, at));
    }
    if 4096 < rows {
        return Err(refusal(Reason::TooManyRows, at));
    }
    let copies = copy_bytes(counted, rows);
    let size = 10 + copies + 4 * (arity * rows);
    if left < size {
        return Err(refusal(Reason::CutOff, at));
    }
    if counted && !copies_fit(&file[at + 10..], rows) {
        return Err(refusal(Reason::CopiesRange, at));
    }
    Ok(Entry {
        mask,
        rows,
        start: at + 10 + copies,
        counted,
        size,
    })
}

// The most tables that a file can have.
const MOST_TABLES: usize = 16;

// The table record whose mark stands at an offset, after that many tables: 17th (5), then the record's own rules.
fn limited_table(file: &[u8], at: usize, count: usize, counted: bool) -> Result<Entry, Refusal>
    requires { at + 2 ≤ length file.now }
    ensures { result ≡ limited_table count counted at (drop at file.now) }
{
    if MOST_TABLES <= count {
        return Err(refusal(Reason::TooManyTables, at));
    }
    table_record(file, at, counted)
}

// The marks that records begin with: of a table without copies, of one with copies, and of the plan.
const TABLE_MARK: &[u8; 2] = b"TB";

const COPIES_MARK: &[u8; 2] = b"TC";

const PLAN_MARK: &[u8; 2] = b"PL";

// The record at an offset, after that many tables: two bytes left (1), mark (2), and then the record's own rules.
fn next_record(file: &[u8], at: usize, count: usize) -> Result<Record, Refusal>
    requires { at ≤ length file.now }
    ensures { result ≡ record_of count (length file.now) at (drop at file.now) }
{
    match file[at..].first_chunk() {
        Some(TABLE_MARK) => limited_table(file, at, count, false).map(Record::Table),
        Some(PLAN_MARK) => plan_record(file, at).map(Record::Plan),
        Some(COPIES_MARK) => limited_table(file, at, count, true).map(Record::Table),
        Some(_) => Err(refusal(Reason::NoRecord, at)),
        None => Err(refusal(Reason::CutOff, at)),
    }
}

// The tables and the end of a file.
pub fn read(file: &[u8]) -> Contents
    ensures { result ≡ contents_of file.now }
{
    let mut catalog = Catalog::new();
    let mut at = 0;
    let end = loop {
        match next_record(file, at, catalog.count) {
            Ok(Record::Table(entry)) => {
                catalog.enter(entry);
                at += entry.size;
            }
            Ok(Record::Plan(start)) => break Ok(start),
            Err(refusal) => break Err(refusal),
        }
    };
    Contents { catalog, end }
}

// The attributes of the first `count` masks together.
fn attributes_of(masks: &[u32], count: usize) -> u32
    requires { count ≤ length masks.now }
    ensures { AttributesTogether masks.now count result }
{
    masks[..count].iter().fold(0, |all, mask| all | mask)
}

// The number of attributes in all tables of a file together. Where the reading ends at a fault, in those before it.
pub fn width(file: &[u8]) -> usize
    ensures { result ≡ file_width file.now }
{
    let Catalog { count, masks, .. } = read(file).catalog;
    words::ones(attributes_of(&masks, count)) as usize
}

// The most words of an output that are used.
const MOST_OUTPUT_WORDS: usize = 1048576;

// The rows of that many values that an output of that many words fits.
pub fn rows_fitting(words: usize, width: usize) -> usize
    requires { 0 < width }
    ensures { result ≡ output_fits width words }
{
    words.min(MOST_OUTPUT_WORDS) / width
}

// The offset of an attribute's column in the file. The product is one of 32 bits: a column lies at most 131,072 bytes behind the
// start of its table's columns.
pub fn column_start(file: &[u8], mask: u32, rows: usize, start: usize, attribute: u32) -> usize
    requires { (attribute < 32) × Fitting (length file.now) (table_with mask rows start) }
    ensures { result ≡ column_start (table_with mask rows start) attribute }
{
    start + (4 * (words::ones_below(mask, attribute) * (rows as u32))) as usize
}

// The value of a row in a column. No other function of the library reads an attribute value.
pub fn value(column: &[u8], row: usize) -> u32
    requires { 4 * row + 4 ≤ length column.now }
    ensures { result ≡ word_at column.now (4 * row) }
{
    words::word(column, 4 * row)
}

// The offset of the column of copies of table t, whose attribute columns start there; 0 where it has none.
// (Promised as a number and not as an `Option`: the crates above keep and compare it as one.)
pub fn copies_at(counted: usize, t: usize, start: usize, rows: usize) -> usize
    requires { (t < 16) × CopiesBefore counted t start rows }
    ensures { result ≡ copies_start counted t start rows }
{
    if (counted >> t) % 2 == 1 {
        start - 4 * rows
    } else {
        0
    }
}

// The copies of a row of a table whose column of copies starts at that offset of the file, 0 for a table that has none, as `copies_at`
// gives it: its clause is `copies_start`, a number.
pub fn copies(file: &[u8], counts: usize, row: usize) -> u32
    requires { CopyInside file.now counts row }
    ensures { result ≡ copies_in file.now counts row }
{
    if counts == 0 {
        1
    } else {
        words::word(&file[counts..], 4 * row)
    }
}
