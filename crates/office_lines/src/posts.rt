//! The posts of a server, as each is made before its first connection and all are taken apart
//! behind their last.

ghost use Rattle.std.specs.Prelude.{◌≡◌, ◌≤◌, [], length, map, reverse, vec_capacity};
ghost use Rattle.office_lines.specs.Tally.{IsEmpty};

use crate::post::Post;
use crate::tally::Tally;
use tap_office::{Desk, Named, Seat};

/// A post whose line has served nobody yet.
pub fn new_post<L, N: Named>(line: L, seat: Seat<N>, desk: Desk<N>) -> Post<L, N>
    ensures { IsEmpty result.tally }
{
    Post {
        line,
        seat,
        desk,
        tally: Tally::new(),
    }
}

/// What the posts' lines came to, in the place that is ready for it.
pub fn tallies_of<L, N: Named>(posts: &[Post<L, N>], ready: Vec<Tally>) -> Vec<Tally>
    requires empty { ready.items ≡ [] }
    requires room { length posts.now ≤ vec_capacity ready }
    ensures { result.items ≡ map (λ post. post.tally) posts.now }
{
    let mut tallies = ready;
    for post in posts {
        tallies.push_reserved(post.tally);
    }
    tallies
}

/// The posts' seats and desks, in the places that are ready for them, the last post's first.
pub fn seats_and_desks<L: Drop, N: Named>(
    posts: Vec<Post<L, N>>,
    ready: Vec<Seat<N>>,
    ready_desks: Vec<Desk<N>>,
) -> (Vec<Seat<N>>, Vec<Desk<N>>)
    requires empty { ready.items ≡ [] }
    requires room { length posts.items ≤ vec_capacity ready }
    requires no_desks { ready_desks.items ≡ [] }
    requires desk_room { length posts.items ≤ vec_capacity ready_desks }
    ensures seats { result.0.items ≡ map (λ post. post.seat) (reverse posts.items) }
    ensures desks { result.1.items ≡ map (λ post. post.desk) (reverse posts.items) }
{
    let mut posts = posts;
    let mut seats = ready;
    let mut desks = ready_desks;
    while let Some(post) = posts.pop() {
        let Post { seat, desk, .. } = post;
        seats.push_reserved(seat);
        desks.push_reserved(desk);
    }
    (seats, desks)
}
