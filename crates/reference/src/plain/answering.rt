//! Implements the calls of an engine for the plain engine.
ghost use Rattle.std.specs.Prelude.{⊤};
ghost use Rattle.reference.specs.World.{Does, drain_step};
ghost use Rattle.reference.specs.PlainViews.{world_of};

use crate::answering::Answering;
use crate::fault::Fault;
use crate::look::{Look, Seen};
use crate::new_rows::NewRows;
use crate::plain::Plain;
use crate::refusals::turn_fault;
use crate::status::Status;
use answer_rows::AnswerRows;
use envelope::Slope;
use plan::{Chart, NodeKind};
use values::Row;

impl Answering for Plain {
    ghost world = { world_of };

    ghost is_whole = { λ _. ⊤ };

    ghost has_numbers = { λ _. ⊤ };

    #[tactic(auto, unfolding(crate::specs::World::declare_step))]
    fn stream(&mut self, name: &str, columns: &[String], from: i64) -> Result<u64, Fault> {
        match self.declare_fault(name, columns, from) {
            Some(fault) => Err(fault),
            None => Ok(self.declare(name, columns, from)?),
        }
    }

    #[tactic(auto, unfolding(crate::specs::World::register_step))]
    fn query(&mut self, name: &str, text: &str, chart: Option<&Chart>) -> Result<u64, Fault> {
        if let Some(fault) = self.register_fault(name) {
            return Err(fault);
        }
        match self.find(text, chart) {
            Err(fault) => Err(fault),
            Ok(plan) => Ok(self.register(name, plan)?),
        }
    }

    #[tactic(auto, unfolding(crate::specs::World::append_step))]
    fn append(&mut self, stream: u64, rows: &NewRows) -> Result<(), Fault> {
        match self.append_fault(stream, rows) {
            Some(fault) => Err(fault),
            None => Ok(self.append_rows(stream, rows)?),
        }
    }

    #[tactic(auto, unfolding(crate::specs::World::heartbeat_step))]
    fn heartbeat(&mut self, stream: u64, at: i64) -> Result<(), Fault> {
        if let Some(fault) = self.heartbeat_fault(stream, at) {
            return Err(fault);
        }
        self.close(stream, at);
        Ok(())
    }

    #[tactic(auto, unfolding(crate::specs::World::drain_step))]
    fn drain(&mut self, rows: u32) -> Result<(), Fault>
        ensures does { Does (λ u. u) (world_of self.old)
            (drain_step (world_of self.old) rows) result (world_of self.new) }
    {
        if let Some(fault) = turn_fault(rows) {
            return Err(fault);
        }
        Ok(self.evaluate_all()?)
    }

    #[tactic(auto, unfolding(crate::specs::World::take_step))]
    fn take(&mut self, query: u64, limit: i64) -> Result<Vec<(i64, Row)>, Fault> {
        match self.take_fault(query, limit) {
            Some(fault) => Err(fault),
            None => Ok(self.hand_out(query, limit)?),
        }
    }

    #[tactic(auto, unfolding(crate::specs::World::take_step))]
    fn take_flat(&mut self, query: u64, limit: i64) -> Result<AnswerRows, Fault> {
        match self.take_fault(query, limit) {
            Some(fault) => Err(fault),
            None => Ok(self.hand_out_flat(query, limit)?),
        }
    }

    #[tactic(auto, unfolding(crate::specs::World::take_step, crate::specs::World::peek_at))]
    fn peek(&self, query: u64, limit: i64) -> Result<AnswerRows, Fault> {
        match self.take_fault(query, limit) {
            Some(fault) => Err(fault),
            None => Ok(self.show(query, limit)?),
        }
    }

    fn status(&self) -> Result<Status, Fault> {
        Ok(self.all_status()?)
    }

    #[tactic(auto, unfolding(crate::specs::World::drop_step))]
    fn drop_query(&mut self, query: u64) -> Result<(), Fault> {
        if let Some(fault) = self.drop_fault(query) {
            return Err(fault);
        }
        self.drop_out(query);
        Ok(())
    }

    /// Keeps everything, since any answer may be evaluated again.
    ///
    /// Example: `the_plain_engine_forgets_nothing` in crates/uses/src/plain.rt.
    fn forget(&mut self) -> Result<(), Fault> {
        Ok(())
    }

    fn tidy(&mut self) {}

    #[tactic(auto, unfolding(crate::specs::World::slopes_at))]
    fn slopes(&self, query: u64) -> Result<Vec<(NodeKind, Slope)>, Fault> {
        match self.query_at(query) {
            Some(query) => Ok(query.operators(self.alloc)?),
            None => Err(Fault::UnknownQuery),
        }
    }

    fn look(&self, look: &Look) -> Result<Seen, Fault> {
        self.seen(look)
    }

    #[tactic(auto, unfolding(crate::specs::World::stream_named))]
    fn stream_named(&self, name: &str) -> Option<u64> {
        self.stream_number(name)
    }

    #[tactic(auto, unfolding(crate::specs::World::query_named))]
    fn query_named(&self, name: &str) -> Option<u64> {
        self.query_number(name)
    }
}
