// Searches and removals, for every record and every query.
ghost use Rattle.std.specs.Prelude.{◌≡◌, not, vec_capacity};
ghost use Rattle.model.specs.Lists.{none_of, oldest, oldest_from, without_oldest, youngest, without};
ghost use Rattle.buffers.specs.Finding.{Finds};

use crate::query::Query;

// The place of the oldest that the query picks.
pub fn oldest<T, Q: Query<T>>(items: &[T], query: &Q) -> Option<usize>
    ensures value { result ≡ oldest_from (Q.picks query.now) 0 items.now }
    ensures finds { Finds (Q.picks query.now) items.now result }
{
    items.iter().position(|item| query.hits(item))
}

// Whether the query picks any.
pub fn any<T, Q: Query<T>>(items: &[T], query: &Q) -> bool
    ensures { result ≡ not (none_of (Q.picks query.now) items.now) }
{
    items.iter().any(|item| query.hits(item))
}

// The youngest that the query picks.
pub fn youngest<T: Copy, Q: Query<T>>(items: &[T], query: &Q) -> Option<T>
    ensures { result ≡ youngest (Q.picks query.now) items.now }
{
    items.iter().rev().copied().find(|item| query.hits(item))
}

// The oldest that the query picks goes out.
pub fn remove_oldest<T, Q: Query<T>>(items: &mut Vec<T>, query: &Q) -> Option<T>
    ensures value { result ≡ oldest (Q.picks query.now) items.old.items }
    ensures after { items.new.items ≡ without_oldest (Q.picks query.now) items.old.items }
    ensures capacity { vec_capacity items.new ≡ vec_capacity items.old }
{
    let i = oldest(items, query)?;
    Some(items.remove(i))
}

// All that the query picks go out, and the others keep their order.
pub fn remove_all<T: Drop, Q: Query<T>>(items: &mut Vec<T>, query: &Q)
    ensures after { items.new.items ≡ without (Q.picks query.now) items.old.items }
    ensures capacity { vec_capacity items.new ≡ vec_capacity items.old }
{
    items.retain(|item| !query.hits(item));
}
