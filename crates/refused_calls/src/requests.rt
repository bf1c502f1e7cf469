//! Commands that are yet to be given to a queue, and the box in which each of them goes and its reply comes.
ghost use Rattle.std.specs.Prelude.{◌≡◌, IfSome};
ghost use Rattle.std.specs.Box.{box_value};
ghost use Rattle.host_queue.specs.declared.view.Request.TheVariants.{Asked};

use crate::came::Came;
use host_queue::Request;
use std::alloc::Global;

/// A reply.
pub trait Tells {
    /// What it says of its command.
    fn came(&self) -> Came;
}

/// Commands, of which the last comes first, and one box for all of them.
#[derive(Drop)]
pub struct Requests<C: Drop, R: Drop> {
    commands: Vec<C>,
    /// Not here while it is in a queue.
    place: Option<Box<Request<C, R>>>,
}

impl<C: Drop, R: Drop> Requests<C, R> {
    /// Commands, and a box with a reply to none of them. None where memory is refused.
    pub fn new(alloc: Global, commands: Vec<C>, reply: R) -> Option<Self> {
        match Box::new(alloc, Request::Answered(reply)) {
            Ok(request) => Some(Requests {
                commands,
                place: Some(request),
            }),
            Err(_) => None,
        }
    }

    /// The next command, in the box. None where there is none, or the box isn't here.
    pub fn next(&mut self) -> Option<Box<Request<C, R>>>
        ensures { IfSome result (λ request. (c : C) × (box_value request ≡ Asked c)) }
    {
        let Some(command) = self.commands.pop() else {
            return None;
        };
        let Some(mut request) = self.place.take() else {
            return None;
        };
        *request = Request::Asked(command);
        Some(request)
    }
}

/// What the reply in a box says of its command.
fn came_of<C: Drop, R: Drop + Tells>(request: &Request<C, R>) -> Came {
    match request {
        Request::Answered(reply) => reply.came(),
        Request::Asked(_) => Came::Wrong,
    }
}

impl<C: Drop, R: Drop + Tells> Requests<C, R> {
    /// Keeps the box, and says what the reply in it says of its command.
    pub fn keep(&mut self, request: Box<Request<C, R>>) -> Came {
        let came = came_of(&request);
        self.place = Some(request);
        came
    }
}
