//! Numbered work, done by many threads, whose result does not depend on who does which piece.
//!
//! A `Work` has pieces with the numbers 0, 1, 2 and so on. Each gives a part, parts combine in any
//! order, and each has a weight. `fan_out` and `alone` do the pieces below a number, and answer
//! their combination, or `Over` where their weights add up to more than a limit. `fan_deal_onto`
//! does so onto a part that was made before, over a book that may serve several deals, one after
//! the other.
//!
//! Pieces are dealt. A `Deal` puts each piece into one of as many deques as there are workers, in
//! turn, before any worker begins. A `Hand` is one worker's end of the deal. It takes the first
//! piece of its own deque, and once that is empty the first piece of another's, which is then
//! stolen. So no worker is idle while pieces are left, and no lock is taken. A hand keeps the takes
//! of each deque up to its own last one, and whenever all hands of a deal are looked at together,
//! these are beginnings of one schedule, which gave each hand what it has. `dealing_law` says that
//! at any moment of it each piece is in just one deque or one hand's list, and `run_law` what that
//! comes to.
//!
//! A `Book` is a number that all workers add the weights of their pieces to, so that each can see
//! when the limit is passed, and stop. A `Share` is what one worker has added. Since others add
//! too, the number may be above what a worker knows of. What is answered rests on the weights of
//! the parts alone.
#![tactic(auto)]

mod book;
mod deal;
mod grow;
mod laws;
mod protocol;
mod seats;
mod single;
mod source;
mod threads;
mod view;
mod worker;

pub use book::{Book, Share};
pub use deal::{Hand, Next, run_law, settled};
pub use laws::{Outcome, PoolFault, Work};
pub use protocol::{Dealing, deque_law};
pub use seats::{Deal, dealing_law};
pub use single::alone;
pub use threads::{fan_deal_onto, fan_on, fan_out};
pub use view::{Packed, Task, View};
