ghost use Rattle.std.specs.Prelude.{◌≡◌};

use mk_cli::Order;
use mk_makefile::State;

/// What reads makefiles: the world that it asks, the sink of its messages, what the lines so far
/// leave, and what the command line orders.
#[derive(Drop)]
pub struct Reader<'a, W, S> {
    pub world: &'a mut W,
    pub err: &'a mut S,
    pub state: &'a mut State,
    pub order: &'a Order,
}

impl<'a, W, S> Reader<'a, W, S> {
    /// A reader of this world, sink, state and order.
    pub fn new(
        world: &'a mut W,
        err: &'a mut S,
        state: &'a mut State,
        order: &'a Order,
    ) -> Reader<'a, W, S>
        ensures same_world { result.world.ghost_name ≡ world.entry.ghost_name }
        ensures same_err { result.err.ghost_name ≡ err.entry.ghost_name }
        ensures same_state { result.state.ghost_name ≡ state.entry.ghost_name }
        ensures world { result.world.now ≡ world.old }
        ensures err { result.err.now ≡ err.old }
        ensures state { result.state.now ≡ state.old }
        ensures order { result.order.now ≡ order.now }
    {
        Reader {
            world,
            err,
            state,
            order,
        }
    }
}
