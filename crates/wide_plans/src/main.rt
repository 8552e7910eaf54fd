// Walks judged and carried on in the wide form, on plans that are made by a rule: small ones and those of 63, 64, 65, 128, 511, 512 and 513 points, of either
// mark, sparse and dense, in one piece and in two; and refused calls, each with everything wrong that is tried later.
// A line for each plan: p, the mark (0 two-way, 1 one-way), how many points, the chance of a link (of 64), the pieces, the random seed, the damage, and how many
// words of the table are passed. For each walk judged a line: j, the kind; after a bar each the walk and the answer, p for a pass, f and the triple, r and the
// number of a refusal. For each walk carried on: c, the kind, k, the length of the output list; after a bar each the preference list, the start that stands at
// the front of the output list, the answer, d for done or r and the number of a refusal, and the output list after the call. Before it, 1000 + p stands at each
// place p behind the start.
#![tactic(auto)]

mod lines;
mod made;

ghost use Rattle.std.specs.Prelude.{◌≤◌, ◌<◌};

use crate::lines::{say_carry_on, say_judge, show_plan};
use crate::made::{damaged, stepped, table_of};
use searches::Mark;

const SEED: u64 = 0x2545f4914f6cdd1d;

// The first n entries of a list, the last two of them exchanged.
fn swapped(list: [u16; 520], n: usize) -> [u16; 520]
    requires { n ≤ 513 }
{
    let mut other = list;
    if 2 <= n {
        let last = n - 1;
        let before = n - 2;
        other[last] = list[before];
        other[before] = list[last];
    }
    other
}

// Each kind on one walk.
fn judge_each(mark: Mark, table: &[u64], walk: [u16; 520], n: usize)
    requires { n ≤ 513 }
{
    for kind in 0u8..7 {
        say_judge(kind, mark, table, walk, n);
    }
}

// A walk carried on from nothing; judged, with its last two points exchanged, and half of it carried on by another list.
fn play_kind(kind: u8, mark: Mark, table: &[u64], n: usize, first: usize)
    requires { (n ≤ 513) × (first < 512) }
{
    let tie_break = stepped(n, first, 11);
    let other = stepped(n, first + 1, 23);
    let walk = say_carry_on(kind, mark, table, tie_break, n, tie_break, 0, 0, n + 2);
    let late = swapped(walk, n);
    let half = n / 2;
    say_judge(kind, mark, table, walk, n);
    say_judge(kind, mark, table, late, n);
    say_carry_on(kind, mark, table, other, n, walk, half, half, n);
}

// A walk that passes a kind, judged by each.
fn play_across(kind: u8, mark: Mark, table: &[u64], n: usize, first: usize)
    requires { (n ≤ 513) × (first < 512) }
{
    let tie_break = stepped(n, first, 11);
    let walk = say_carry_on(kind, mark, table, tie_break, n, tie_break, 0, 0, n);
    judge_each(mark, table, walk, n);
}

fn play_table(mark: Mark, table: &[u64], n: usize, first: usize)
    requires { (n ≤ 513) × (first < 512) }
{
    for kind in 0u8..7 {
        play_kind(kind, mark, table, n, first);
    }
    judge_each(mark, table, stepped(n, first, 11), n);
    play_across(3, mark, table, n, first);
    play_across(4, mark, table, n, first);
    play_across(6, mark, table, n, first);
}

// A plan with nothing wrong.
fn play(mark: Mark, n: usize, chance: u64, pieces: u8, seed: u64, first: usize)
    requires { (n ≤ 513) × (first < 512) }
{
    let table = table_of(mark, n, chance, pieces, seed);
    let words = 8 * n;
    show_plan(mark, n, chance, pieces, seed, 0, words);
    play_table(mark, &table[..words], n, first);
}

// Plans of up to ten points.
fn play_small(mark: Mark) {
    for n in 0..11 {
        play(mark, n, 24, 1, SEED ^ (n as u64), 2);
    }
    play(mark, 9, 40, 2, SEED, 1);
}

fn play_wide(mark: Mark) {
    play(mark, 63, 4, 1, SEED, 7);
    play(mark, 64, 16, 1, SEED, 1);
    play(mark, 65, 5, 1, SEED, 0);
    play(mark, 65, 40, 1, SEED, 64);
    play(mark, 128, 12, 2, SEED, 100);
    play(mark, 511, 1, 1, SEED, 300);
    play(mark, 512, 32, 1, SEED, 511);
}

// The points upwards, and at the places 1 and 2 one that is none.
fn no_walk(n: usize) -> [u16; 520]
    requires { n ≤ 513 }
{
    let mut walk = stepped(n, 0, 1);
    walk[1] = 600;
    walk[2] = 600;
    walk
}

// Calls on a damaged plan: on a walk that is no walk, and with lists that do not fit.
fn refuse_table(mark: Mark, table: &[u64], n: usize)
    requires { n ≤ 513 }
{
    let up = stepped(n, 0, 1);
    let walk = no_walk(n);
    say_judge(7, mark, table, walk, 4);
    say_judge(1, mark, table, walk, 4);
    say_judge(2, mark, table, up, 0);
    say_carry_on(255, mark, table, walk, 4, walk, 3, 3, 2);
    say_carry_on(3, mark, table, walk, 4, walk, 3, 3, 2);
    say_carry_on(4, mark, table, up, n, up, 0, 0, n);
}

fn refuse(mark: Mark, n: usize, damage: u8, words: usize)
    requires { (0 < n) × (n ≤ 512) × (words ≤ 4105) }
{
    let table = damaged(table_of(mark, n, 20, 1, SEED), n, damage);
    show_plan(mark, n, 20, 1, SEED, damage, words);
    refuse_table(mark, &table[..words], n);
}

// The table is wrong: 2 to 5, each with what is tried later, and alone.
fn refuse_tables(mark: Mark) {
    refuse(mark, 6, 7, 47);
    refuse(mark, 6, 0, 49);
    refuse(mark, 6, 0, 1);
    refuse(mark, 6, 7, 48);
    refuse(mark, 6, 1, 48);
    refuse(mark, 6, 6, 48);
    refuse(mark, 6, 2, 48);
    refuse(mark, 6, 4, 48);
    refuse(mark, 65, 1, 520);
    refuse(mark, 65, 4, 520);
    refuse(mark, 511, 1, 4088);
    refuse(mark, 512, 2, 4096);
    refuse(mark, 512, 4, 4096);
    refuse(mark, 512, 0, 4095);
    refuse(mark, 512, 7, 4104);
}

// More points than the wide form takes.
fn refuse_many(mark: Mark, n: usize)
    requires { n ≤ 513 }
{
    let table = table_of(mark, n, 3, 1, SEED);
    let words = 8 * n;
    show_plan(mark, n, 3, 1, SEED, 0, words);
    refuse_table(mark, &table[..words], n);
}

// 100 points upwards, the first two replaced by some that are none.
fn far() -> [u16; 520] {
    let mut list = stepped(100, 0, 1);
    list[0] = 100;
    list[1] = 612;
    list
}

// 100 points upwards, the first replaced by one that is none, the second by the third.
fn later() -> [u16; 520] {
    let mut list = stepped(100, 0, 1);
    list[0] = 612;
    list[1] = 2;
    list
}

// 100 points upwards, and in the place of the third the first again.
fn twice() -> [u16; 520] {
    let mut list = stepped(100, 0, 1);
    list[2] = 0;
    list
}

fn refuse_walks(mark: Mark, table: &[u64]) {
    say_judge(0, mark, table, stepped(100, 0, 1), 101);
    say_judge(0, mark, table, far(), 3);
    say_judge(0, mark, table, later(), 2);
    say_judge(0, mark, table, twice(), 3);
    say_judge(0, mark, table, twice(), 2);
}

fn refuse_far(mark: Mark, table: &[u64]) {
    let list = far();
    say_carry_on(1, mark, table, list, 99, list, 3, 101, 99);
    say_carry_on(1, mark, table, list, 99, list, 3, 3, 99);
    say_carry_on(1, mark, table, list, 99, list, 3, 3, 100);
    say_carry_on(1, mark, table, list, 100, twice(), 3, 3, 100);
    say_carry_on(1, mark, table, twice(), 100, list, 3, 3, 100);
}

fn refuse_twice(mark: Mark, table: &[u64]) {
    let up = stepped(100, 0, 1);
    say_carry_on(1, mark, table, twice(), 100, up, 3, 3, 100);
    say_carry_on(1, mark, table, up, 100, twice(), 3, 3, 100);
    say_carry_on(1, mark, table, up, 100, up, 100, 100, 100);
    say_carry_on(6, mark, table, up, 100, up, 50, 50, 101);
}

// The lists are wrong: 6, 10, 7, 8, 9 and 12, each with what is tried later, and alone.
fn refuse_on(mark: Mark, table: &[u64]) {
    refuse_walks(mark, table);
    refuse_far(mark, table);
    refuse_twice(mark, table);
}

fn refuse_lists(mark: Mark, n: usize)
    requires { n ≤ 513 }
{
    let table = table_of(mark, n, 2, 1, SEED);
    let words = 8 * n;
    show_plan(mark, n, 2, 1, SEED, 0, words);
    refuse_on(mark, &table[..words]);
}

fn main() {
    play_small(Mark::TwoWay);
    play_small(Mark::OneWay);
    play_wide(Mark::TwoWay);
    play_wide(Mark::OneWay);
    refuse_tables(Mark::TwoWay);
    refuse_tables(Mark::OneWay);
    refuse_many(Mark::TwoWay, 513);
    refuse_many(Mark::OneWay, 513);
    refuse_lists(Mark::TwoWay, 100);
    refuse_lists(Mark::OneWay, 100);
}
