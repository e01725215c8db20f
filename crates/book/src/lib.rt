// The book of a sheet (document 01: "a translated sheet is a book"): one table that has all that the sheet says, and that a monitor looks up at each event.
#![tactic(auto)]

ghost use Rattle.std.specs.Prelude.{◌≡◌, cond, ℕ, ◌<◌, ◌≤◌};
ghost use Rattle.names.specs.Names.{member, insert};
ghost use Rattle.tables.specs.Words.{round_in};
ghost use Rattle.book.specs.Tables.{stored, in_turn, fragment_set, name_table, rule_set, rule_table, mask_of, put_cell, put_fragment, put_rule};
ghost use Rattle.book.specs.Books.{Translates, book_from};

use fields::Refused;
use parts::RuleTables;
use sheet::Pages;
use std::array;
use tables::Table;

// ---- the names of each fragment

// The set of names of fragment k.
fn fragment_set(rules: &RuleTables, k: usize) -> u64
    requires { k < 256 }
    ensures { result ≡ fragment_set rules.now.fragments rules.now.ranges k }
{
    let count = tables::ranges_in(rules.fragments[k]) as usize;
    let base = 8 * k;
    let ranges = &rules.ranges[base..base + count];
    ranges
        .iter()
        .fold(0, |set, word| names::with(set, tables::bit(*word)))
}

fn name_table(rules: &RuleTables) -> [u64; 256]
    ensures { result ≡ name_table rules.now.fragments rules.now.ranges }
{
    array::from_fn(|k| fragment_set(rules, k))
}

// ---- the rules of each name

// The set of names of rule r.
fn rule_set(rules: &RuleTables, names: &[u64; 256], r: usize) -> u64
    requires { r < 16 }
    ensures { result ≡ rule_set rules.now.heads names.now r }
{
    let count = tables::fragments_in_round(rules.heads[r]) as usize;
    let base = 16 * r;
    let of_fragments = &names[base..base + count];
    of_fragments.iter().fold(0, |set, of_one| set | *of_one)
}

fn rule_table(rules: &RuleTables, names: &[u64; 256]) -> [u64; 16]
    ensures { result ≡ rule_table rules.now.heads names.now }
{
    array::from_fn(|r| rule_set(rules, names, r))
}

// The mask, with rule r if its set has name m.
fn add_rule(mask: u64, set: u64, m: u8, r: usize) -> u64
    requires { r < 16 }
    ensures { result ≡ cond (member set m) (insert mask r) mask }
{
    if names::has(set, m) {
        return names::with(mask, r as u8);
    }
    mask
}

// The mask of the rules that hold name m.
fn mask_of(sets: &[u64; 16], m: u8, count: usize) -> u64
    requires { count ≤ 16 }
    ensures { result ≡ mask_of sets.now m count }
{
    let mut mask = 0;
    for r in 0..count {
        mask = add_rule(mask, sets[r], m, r);
    }
    mask
}

// Stores each name's mask.
fn put_masks(table: &mut Table, sets: &[u64; 16], count: usize)
    requires { count ≤ 16 }
    ensures { table.new ≡ stored (λ (m : ℕ). mask_of sets.now m count) 64 table.old }
{
    for m in 0..tables::NAMES {
        table[m] = mask_of(sets, m as u8, count);
    }
}

// ---- the cells of each rule

// Stores the cells of fragment k of the pages, one of rule r's.
fn put_ranges(
    table: &mut Table,
    ranges: &[u64; 2048],
    r: usize,
    k: usize,
    shared: u64,
    count: usize,
)
    requires { (r < 16) × (k < 256) × (shared < 4194304) × (count ≤ 8) }
    ensures { table.new ≡ in_turn (put_cell ranges.now r k shared) count table.old }
{
    let first = tables::CELLS + tables::NAMES * r;
    let base = 8 * k;
    for i in 0..count {
        let word = ranges[base + i];
        let at = first + (tables::bit(word) as usize);
        table[at] = cells::cell_of(shared, word, i);
    }
}

// Stores the cells of rule r.
fn put_fragments(table: &mut Table, rules: &RuleTables, head: u64, r: usize)
    requires { r < 16 }
    ensures { table.new ≡ in_turn (put_fragment rules.now.fragments rules.now.ranges head r) (round_in head) table.old }
{
    let all = tables::fragments_in_round(head) as usize;
    let base = 16 * r;
    for f in 0..all {
        let k = base + f;
        let word = rules.fragments[k];
        let count = tables::ranges_in(word) as usize;
        put_ranges(
            table,
            &rules.ranges,
            r,
            k,
            cells::shared(head, word, f),
            count,
        );
    }
}

// Stores each rule's head and cells.
fn put_rules(table: &mut Table, rules: &RuleTables, count: usize)
    requires { count ≤ 16 }
    ensures { table.new ≡ in_turn (put_rule rules.now.heads rules.now.fragments rules.now.ranges) count table.old }
{
    for r in 0..count {
        let head = rules.heads[r];
        table[tables::HEADS + r] = head;
        put_fragments(table, rules, head, r);
    }
}

// ---- the book

#[derive(Drop)]
pub struct Book {
    // the rules that hold each name, each rule's head and what it says of each of its names, the version and the outputs (tables/specs/Cells)
    pub table: Table,
}

// The book of a sheet's pages.
fn book_of(pages: &Pages) -> Book
    ensures { result ≡ book_from pages.now }
{
    let n = tables::few(pages.count as usize);
    let names = name_table(&pages.tables);
    let sets = rule_table(&pages.tables, &names);
    let mut table = [0u64; tables::LENGTH];
    put_masks(&mut table, &sets, n);
    put_rules(&mut table, &pages.tables, n);
    table[tables::VERSION] = pages.version as u64;
    table[tables::OUTPUTS] = pages.outputs;
    Book { table }
}

// Reads a sheet from any bytes and translates it: the book of an accepted sheet, or the reader's refusal.
pub fn translate(s: &[u8]) -> Result<Book, Refused>
    ensures { Translates s.now result }
{
    let mut pages = Pages::new();
    sheet::read_into(s, &mut pages)?;
    Ok(book_of(&pages))
}
