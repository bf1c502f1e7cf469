//! The rule of the table, and what each step tells.
ghost use Rattle.std.specs.Box.{box_value};
ghost use Rattle.host_queue.specs.Tickets.{Kept};
ghost use Rattle.host_queue.specs.Views.{first_view};
ghost use Rattle.host_queue.specs.Plays.{drew, placed, took, answered, gathered, looked};
ghost use Rattle.host_queue.specs.Notes.{host_of, guest_of, note_of, gone, farewell_of, told, spent};

use crate::machine::Machine;
use crate::view::{Request, View};
use atomic_table::{Join, Play, Seat, Shared, Split, Table, TableRule};
use std::alloc::Global;
use std::marker::PhantomData;
use std::snapshot::Snapshot;

/// The rule of the table: what its words, its slots and the seats say together.
pub struct Tickets;

impl<D: Machine<C, R>, C: Drop, R: Drop> TableRule<
    Option<Box<Request<C, R>>>,
    View<D, C, R>,
    Snapshot<D>,
> for Tickets {
    ghost holds = { λ key. Kept D.step box_value key.value };

    ghost first = { λ key. first_view key.value };
}

/// The seat of a client, of the driver or of a note. It takes no bytes.
pub type QueueSeat<D, C, R> = Seat<Option<Box<Request<C, R>>>, View<D, C, R>>;

/// The words and slots as threads share them: a word that counts the draws, a word and a slot for each ticket, and
/// words that nobody changes.
pub type Board<D, C, R> = Shared<Option<Box<Request<C, R>>>, View<D, C, R>, Snapshot<D>, Tickets>;

/// The owner of the words and slots.
pub type Rows<D, C, R> = Table<
    Option<Box<Request<C, R>>>,
    View<D, C, R>,
    Snapshot<D>,
    Tickets,
    Global,
>;

/// A client's step that draws the next ticket, or tells it that all are drawn.
pub(crate) struct Draw;

impl<D, C: Drop, R: Drop> Play<Option<Box<Request<C, R>>>, View<D, C, R>> for Draw {
    ghost then = { drew box_value };
}

/// A client's step that places its request at the ticket that it drew last.
pub(crate) struct Put;

impl<D, C: Drop, R: Drop> Play<Option<Box<Request<C, R>>>, View<D, C, R>> for Put {
    ghost then = { placed box_value };
}

/// The driver's step that takes the next ticket's request, or tells it that none is there.
pub(crate) struct Take;

impl<D, C: Drop, R: Drop> Play<Option<Box<Request<C, R>>>, View<D, C, R>> for Take {
    ghost then = { took box_value };
}

/// The driver's step that puts the reply to the request that it took.
pub(crate) struct Answer;

impl<D, C: Drop, R: Drop> Play<Option<Box<Request<C, R>>>, View<D, C, R>> for Answer {
    ghost then = { answered box_value };
}

/// A client's step that collects the reply at one of its tickets, or tells it that none is there, of a machine `M`.
pub(crate) struct Gather<M> {
    machine: PhantomData<M>,
}

impl<D: Machine<C, R>, C: Drop, R: Drop> Play<Option<Box<Request<C, R>>>, View<D, C, R>>
    for Gather<D> {
    ghost then = { gathered D.step box_value };
}

/// A step that tells a seat how many tickets are drawn, and what the driver has done, of a machine `M`.
pub(crate) struct Look<M> {
    machine: PhantomData<M>,
}

impl<D: Machine<C, R>, C: Drop, R: Drop> Play<Option<Box<Request<C, R>>>, View<D, C, R>>
    for Look<D> {
    ghost then = { looked D.step box_value };
}

/// A client's seat that is split off the driver's: the driver lets one client more in.
pub(crate) struct Admit;

impl<D, C, R> Split<View<D, C, R>> for Admit {
    ghost left = { host_of };

    ghost right = { guest_of };
}

/// A note that is split off a seat: the seat stays what it is, and the note says what it knows.
pub(crate) struct Tell;

impl<D, C, R> Split<View<D, C, R>> for Tell {
    ghost left = { λ v. v };

    ghost right = { note_of };
}

/// A note that is split off a seat with its right to draw and its count of tickets, which the seat then lacks.
pub(crate) struct Leave;

impl<D, C, R> Split<View<D, C, R>> for Leave {
    ghost left = { gone };

    ghost right = { farewell_of };
}

/// A note that is joined to a seat: the seat then knows what the note says, which is spent.
pub(crate) struct Learn;

impl<D, C, R> Join<View<D, C, R>> for Learn {
    ghost both = { told };

    ghost spent = { spent };
}
