//! Sessions: a shared tree with the working memory of one thread.

ghost use Rattle.std.specs.Prelude.{◌≡◌, ◌<◌, ◌≤◌, ℕ, List, [], IfErr, IfOk, IfSome, IsOk, IsSome, IsTrue, OnErr, Some, None, ◌+◌, length, map, min, take, true};
ghost use Rattle.rt_command.specs.Choices.{Choices};
ghost use Rattle.rt_embed.specs.{GivenBoxes.{HasBoxes, StopsAtBoxes}, Findings.{HasFound}};
ghost use Rattle.rt_embed.specs.{Costs.{opened_by_finds, opened_by_measures, opened_by_text}, Questions.{AllAsk, AsksNone, measured_of}};
ghost use Rattle.rt_embed.specs.Sessions.{HasOpened, IsRunOf};
ghost use Rattle.rt_filter.specs.{Lines.{numbered_lines}, Stages.{HasLoaded, Stops, is_of_load}};
ghost use Rattle.rt_filter.specs.Replies.{Loaded, any_fault, output, tree_of};

use crate::boxes::{Boxes, table_of};
use crate::finding::{Found, find_each};
use crate::measuring::measure_each;
use crate::plain_query::PlainQuery;
use crate::question::Measure;
use crate::reply_sink::ReplySink;
use crate::score::Score;
use crate::vertex::Vertex;
use rt_filter::{RunFault, Settings, answer_batch, load};
use rt_search::Frontier;
use rt_tree::Tree;
use std::alloc::{AllocError, Global};
use std::marker::Model;
use std::mem;
use std::sync::Arc;

/// A loaded tree, which sessions share, and what a session has of its own: the memory of its searches, and its reply.
///
/// Contracts see the tree, the reply to the last text, and how many nodes were opened in its frontier. No call changes the
/// tree. A call that runs out of memory returns [`AllocError`], and the session stays usable.
#[derive(Drop)]
pub struct Session {
    tree: Arc<Tree>,
    // (`None` after a call that ran out of memory)
    frontier: Option<Frontier>,
    reply: Vec<u8>,
}

impl Model for Session {
    ghost use Rattle.std.specs.Prelude.{◌≤◌, IfSome, length};
    ghost use Rattle.rt_embed.specs.Sessions.{Contents};
    ghost use Rattle.std.specs.Option.{option_map};

    ghost Value = { Contents };

    ghost view = { λ a. record {
      tree = a.tree.value;
      reply = a.reply.items;
      opened = option_map (λ f. f.opened) a.frontier;
    } };

    ghost invariant = { λ a. IfSome a.frontier (λ f. length a.tree.value.entries ≤ f.capacity) };
}

impl Session {
    /// The first session of a table in CSV under settings, or why there is none: a fault of the table with its record and
    /// field, a failed read, which bytes in memory don't have, or out of memory.
    pub fn open(alloc: Global, settings: &Settings, table: &[u8]) -> Result<Session, RunFault>
        ensures loaded { IfOk result (λ session. HasLoaded settings.now table.now session.tree) }
        ensures reply { IfOk result (λ session. session.reply ≡ []) }
        ensures ready { IfOk result (λ session. IsSome session.opened) }
        ensures stops { IfErr result (λ fault. Stops settings.now table.now fault) }
        ensures of_load { IfErr result (λ fault. IsTrue (is_of_load (Some fault))) }
    {
        let (tree, frontier) = match load(alloc, settings, table) {
            Ok(loaded) => loaded,
            Err(fault) => return Err(fault),
        };
        match Session::of_tree(alloc, tree, frontier) {
            Ok(session) => Ok(session),
            Err(_) => Err(RunFault::Memory),
        }
    }

    /// The first session of a table of boxes, packed under the settings, whose header isn't used; or why there is none.
    pub fn of_boxes<B: Boxes>(
        alloc: Global,
        settings: &Settings,
        boxes: &B,
    ) -> Result<Session, RunFault>
        requires fit { B.fit boxes.now }
        ensures loaded { IfOk result (λ session.
            HasBoxes settings.now (B.given boxes.now) session.tree) }
        ensures reply { IfOk result (λ session. session.reply ≡ []) }
        ensures ready { IfOk result (λ session. IsSome session.opened) }
        ensures fault { IfErr result (λ fault.
            StopsAtBoxes settings.now (B.given boxes.now) fault) }
    {
        let table = table_of(alloc, settings.max_entries(), boxes)?;
        let tree = Tree::pack(alloc, table, settings.fanout())?;
        let frontier = Frontier::new(alloc, tree.len())?;
        Ok(Session::of_tree(alloc, tree, frontier)?)
    }

    /// Another session of the same table, for another thread, with an empty reply.
    pub fn share(&self, alloc: Global) -> Result<Session, AllocError>
        ensures { IfOk result (λ session. session ≡ record {
          tree = self.now.tree;
          reply = [];
          opened = Some 0;
        }) }
    {
        let tree = Arc::try_clone(&self.tree)?;
        let frontier = Frontier::new(alloc, tree.len())?;
        Ok(Session {
            tree,
            frontier: Some(frontier),
            reply: Vec::new(alloc),
        })
    }

    /// The tree.
    pub fn tree(&self) -> &Tree
        ensures { result.now ≡ self.now.tree }
    {
        &self.tree
    }

    /// Answers query lines, as a run of their own: they are numbered from 1, and the last needs no line feed. The reply is
    /// kept, instead of the last one. Returns whether some line is faulty. After an error the reply is empty.
    #[tactic(auto, using(crate::proofs::Headline::run_of_table), unfolding(crate::specs::Costs::opened_by_text))]
    pub fn ask(&mut self, alloc: Global, queries: &[u8]) -> Result<bool, AllocError>
        // What a run of the program writes for a table's bytes and these lines, if the tree is that of the table.
        ensures headline { IfOk result (λ bad. (choices : Choices) (table : List ℕ)
            → HasLoaded choices table self.old.tree
            → IsRunOf choices table queries.now self.new.reply bad) }
        // The replies over any entries whose packed tree this is.
        ensures reply { IfOk result (λ _. (loaded : Loaded) → self.old.tree ≡ tree_of loaded
            → self.new.reply ≡ output loaded (numbered_lines queries.now true)) }
        ensures bad { IfOk result (λ bad. bad ≡ any_fault (numbered_lines queries.now true)) }
        ensures forgotten { IfErr result (λ _. self.new.reply ≡ []) }
        ensures tree { self.new.tree ≡ self.old.tree }
        // The opened nodes are those of the lines, one after the other.
        ensures worked { IfOk result (λ _.
            HasOpened self.old.opened (opened_by_text self.old.tree queries.now) self.new.opened) }
    {
        let buffer = mem::replace(&mut self.reply, Vec::new(alloc));
        let frontier = self.take_frontier(alloc)?;
        let mut sink = ReplySink::new(buffer);
        match answer_batch(&self.tree, frontier, queries, &mut sink) {
            Ok((bad, frontier)) => {
                self.frontier = Some(frontier);
                self.reply = sink.into_bytes();
                Ok(bad)
            }
            Err(_) => Err(AllocError),
        }
    }

    /// Finds the answers to queries, one list after the other, without the first `skip` of them all. Each id is written to
    /// `ids`, its score to `scores`, and the end of each query's list to `ends`. What has no place in `ends` or `scores` is
    /// left out. The search ends when the next answer has no place in `ids`.
    pub fn find(
        &mut self,
        alloc: Global,
        queries: &[PlainQuery],
        vertices: &[Vertex],
        skip: usize,
        ends: &mut [usize],
        ids: &mut [i64],
        scores: &mut [Score],
    ) -> Result<Found, AllocError>
        ensures found { IfOk result (λ found. HasFound self.old.tree.entries vertices.now skip
            queries.now ends.new ids.new scores.new found) }
        ensures untouched { OnErr result ((ends.new ≡ ends.old) × (ids.new ≡ ids.old)
            × (scores.new ≡ scores.old)) }
        // No query is searched for more answers than those skipped, those with a place, and the next one.
        ensures worked { let needed = skip + length ids.old + 1 in IfOk result (λ found.
            HasOpened self.old.opened (opened_by_finds self.old.tree vertices.now needed
            (take (found.done + 1) queries.now)) self.new.opened) }
        // With a frontier the call can't fail.
        ensures made { IsSome self.old.opened → IsOk result }
        ensures same { self.new ≡ record self.old { opened = self.new.opened } }
    {
        let frontier = self.take_frontier(alloc)?;
        let (found, left) = find_each(
            &self.tree, frontier, queries, vertices, skip, ends, ids, scores,
        );
        self.frontier = Some(left);
        Ok(found)
    }

    /// Measures queries: how many boxes each selects, or what it costs. Returns how many are measured: as many as have
    /// places, or those before the first invalid one.
    pub fn measure(
        &mut self,
        alloc: Global,
        measure: Measure,
        queries: &[PlainQuery],
        vertices: &[Vertex],
        measured: &mut [u64],
    ) -> Result<usize, AllocError>
        ensures measured { IfOk result (λ n. take n measured.new
            ≡ map (measured_of self.old.tree vertices.now measure) (take n queries.now)) }
        ensures questions { IfOk result (λ n. AllAsk vertices.now (take n queries.now)) }
        ensures most { IfOk result (λ n. n ≤ min (length queries.now) (length measured.old)) }
        ensures stop { IfOk result (λ n. n < min (length queries.now) (length measured.old)
            → AsksNone vertices.now queries.now n) }
        ensures untouched { OnErr result (measured.new ≡ measured.old) }
        ensures worked { IfOk result (λ n. HasOpened self.old.opened (opened_by_measures
            self.old.tree vertices.now measure (take n queries.now)) self.new.opened) }
        // With a frontier the call can't fail.
        ensures made { IsSome self.old.opened → IsOk result }
        ensures same { self.new ≡ record self.old { opened = self.new.opened } }
    {
        let frontier = self.take_frontier(alloc)?;
        let (done, left) = measure_each(&self.tree, frontier, measure, queries, vertices, measured);
        self.frontier = Some(left);
        Ok(done)
    }

    /// The reply to the last text.
    pub fn reply(&self) -> &[u8]
        ensures { result.now ≡ self.now.reply }
    {
        self.reply.as_slice()
    }

    /// Clears the reply, and frees its memory.
    pub fn forget_reply(&mut self, alloc: Global)
        ensures { self.new ≡ record self.old { reply = [] } }
    {
        self.reply = Vec::new(alloc);
    }

    // The first session of a tree.
    fn of_tree(alloc: Global, tree: Tree, frontier: Frontier) -> Result<Session, AllocError>
        requires capacity { length tree.entries ≤ frontier.capacity }
        ensures { IfOk result (λ session. session ≡ record {
          tree = tree;
          reply = [];
          opened = Some frontier.opened;
        }) }
    {
        Ok(Session {
            tree: Arc::new(alloc, tree)?,
            frontier: Some(frontier),
            reply: Vec::new(alloc),
        })
    }

    // The frontier, a new one if the last call ran out of memory.
    fn take_frontier(&mut self, alloc: Global) -> Result<Frontier, AllocError>
        ensures capacity { IfOk result (λ f. length self.old.tree.entries ≤ f.capacity) }
        ensures made { IsSome self.old.opened → IsOk result }
        ensures counted { IfOk result (λ f. IfSome self.old.opened (λ n. f.opened ≡ n)) }
        ensures same { self.new ≡ record self.old { opened = None } }
    {
        match self.frontier.take() {
            Some(frontier) => Ok(frontier),
            None => Frontier::new(alloc, self.tree.len()),
        }
    }
}
