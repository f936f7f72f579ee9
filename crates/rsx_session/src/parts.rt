//! A session without its graph.

ghost use Rattle.std.specs.Prelude.{◌≡◌, length, map, OnOk};
ghost use Rattle.rsx_graph_state.specs.Answers.{changed};
ghost use Rattle.rsx_graph.specs.Places.{places};
ghost use Rattle.rsx_session.specs.Kept.{known, taken};

use crate::published::HubSource;
use crate::session::{Record, Session, View, take_in};
use rsx_demo::{Demo, Val};
use rsx_graph::Graph;
use rsx_types::{NoMemory, Signal, SubId};

/// What a session keeps beside its graph: what each of its hubs publishes, and what each of its subscribers received.
#[derive(Drop)]
pub struct SessionRest {
    view: View,
    published: Vec<HubSource>,
    records: Vec<Record>,
    spare: Vec<(SubId, Signal<Val>)>,
}

impl Session {
    /// Takes the graph out. [`SessionRest::put_together`] makes a session again.
    pub fn take_apart(self) -> (Graph<Demo>, SessionRest)
        ensures graph { result.0 ≡ self.graph }
        ensures view { result.1.view ≡ self.view }
        ensures published { result.1.published ≡ self.published }
        ensures records { result.1.records ≡ self.records }
        ensures spare { result.1.spare ≡ self.spare }
    {
        let Session {
            view,
            graph,
            published,
            records,
            spare,
        } = self;
        let rest = SessionRest {
            view,
            published,
            records,
            spare,
        };
        (graph, rest)
    }

    /// How many hubs there are.
    pub fn hubs(&self) -> usize
        ensures { result ≡ length self.now.published.items }
    {
        self.published.len()
    }

    /// How many subscriptions there are.
    pub fn subscriptions(&self) -> usize
        ensures { result ≡ length self.now.records.items }
    {
        self.records.len()
    }

    /// For how many more subscriptions there is place, as [`Graph::places`] says.
    pub fn places(&self) -> u64
        ensures { result ≡ places self.now.graph.hubs.items (length self.now.graph.subscriptions.items) }
    {
        self.graph.places()
    }
}

impl SessionRest {
    /// The session of this graph and of what was kept.
    pub fn put_together(self, graph: Graph<Demo>) -> Session
        ensures graph { result.graph ≡ graph }
        ensures view { result.view ≡ self.view }
        ensures published { result.published ≡ self.published }
        ensures records { result.records ≡ self.records }
        ensures spare { result.spare ≡ self.spare }
    {
        Session {
            view: self.view,
            graph,
            published: self.published,
            records: self.records,
            spare: self.spare,
        }
    }

    /// How many subscriptions there are.
    pub fn subscriptions(&self) -> usize
        ensures { result ≡ length self.now.records.items }
    {
        self.records.len()
    }

    /// Keeps that a subscriber received this signal. Where there is no such subscription, nothing is kept.
    ///
    /// # Errors
    ///
    /// `NoMemory` where a growth was refused.
    pub fn receive(&mut self, sub: SubId, signal: Signal<Val>) -> Result<(), NoMemory>
        ensures received { OnOk result (map known self.new.records.items ≡ changed (taken signal) (map known self.old.records.items) sub.0) }
        ensures view { self.new.view ≡ self.old.view }
        ensures published { self.new.published ≡ self.old.published }
        ensures spare { self.new.spare ≡ self.old.spare }
    {
        match take_in(&mut self.records, sub, signal) {
            Ok(()) => Ok(()),
            Err(_) => Err(NoMemory),
        }
    }
}
