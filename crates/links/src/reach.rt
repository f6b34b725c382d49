// What is reached from a book's head.
ghost use Rattle.std.specs.Prelude.{◌≡◌, ◌≤◌, false, length, take, replicate, IfOk};
ghost use Rattle.links.specs.Naming.{met, met_all};
ghost use Rattle.links.specs.Queues.{Queue, Grown};
ghost use Rattle.links.specs.Reached.{ReachIsLeast};
ghost use Rattle.links.specs.Reaches.{reach_answer, reach_list, reach_marks};
ghost use Rattle.links.specs.Walks.{filled};

use super::link::{Link, Linked, links_of};
use book::refusal::{Fault, Refusal};

// Stays: four parameters that travel together. As fields of a struct with these two as its methods,
// which prove, each method has three clauses more: that both lent lists and the number of records
// stay the same ones. In `reach` the goals `returns-clause-slots` and `returns-clause-flags`, what
// the lists hold when the struct ends, stayed open.

// Record x behind the first `count` slots of the list, unless x is 0, past n, or marked already;
// answers the new count.
fn meet(list: &mut [u16], marks: &mut [bool], count: usize, n: usize, x: u16) -> usize
    requires { Queue n count list.old marks.old }
    ensures { Grown n count list.old marks.old (met n (take count list.old) x) result list.new marks.new }
{
    let place = usize::from(x);
    if place == 0 || place > n || marks[place] {
        return count;
    }
    marks[place] = true;
    list[count] = x;
    count + 1
}

// The same of each record that the index fields name. Stays: as at `meet`.
fn meet_all(list: &mut [u16], marks: &mut [bool], start: usize, n: usize, links: &[Link]) -> usize
    requires { Queue n start list.old marks.old }
    ensures { Grown n start list.old marks.old (met_all n (take start list.old) links.now) result list.new marks.new }
{
    let mut count = start;
    for link in links {
        count = meet(list, marks, count, n, link.to);
    }
    count
}

// The first k marks unset; the later ones stay.
fn unmark(marks: &mut [bool], k: usize)
    requires { k ≤ length marks.old }
    ensures { marks.new ≡ filled (replicate k false) marks.old }
{
    marks[0..k].fill(false);
}

// The head and the records that are reached from it through index fields, into the first slots of
// the list, in the order in which they are met; answers how many. The mark of each of the book's
// whole records, and of the head, then tells whether it is one of these. Both lists need a slot for
// the head and for each of these records.
pub fn reach<R: Linked>(book: &[u8], list: &mut [u16], marks: &mut [bool]) -> Result<usize, Refusal>
    ensures answer { result ≡ reach_answer R.Linked.links book.now list.old marks.old }
    ensures slots { list.new ≡ reach_list R.Linked.links book.now list.old marks.old }
    ensures flags { marks.new ≡ reach_marks R.Linked.links book.now list.old marks.old }
    ensures within { IfOk result (λ count. count ≤ length list.new) }
{
    let records = (book.len() / 32).saturating_sub(1);
    if list.len() <= records || marks.len() <= records {
        return Err(Fault::Room.at(0));
    }
    unmark(marks, records + 1);
    marks[0] = true;
    list[0] = 0;
    // Stays: a queue in lent slots, since there is no heap. It grows behind while its front is read,
    // and so no iterator over the list can run it.
    let mut count = 1;
    let mut seen = 0;
    while seen < count {
        let links = links_of::<R>(book, list[seen]);
        count = meet_all(list, marks, count, records, &links);
        seen += 1;
    }
    Ok(count)
}

// What is reached is the least set of records that has the head and that is closed under naming.
pub fn reach_is_least()
    ensures { ReachIsLeast }
{}
