//! What rows make and later rows name.
use rds_delta::{Certificate, Digest};
use rds_dots::DotSet;
use rds_names::Fault;
use rds_state::{Replica, State};
use rds_tree::Index;
use std::alloc::Global;
use std::collections::BTreeMap;

/// Values by name.
#[derive(Drop)]
pub struct Shelf<T> {
    values: BTreeMap<String, T>,
}

impl<T: Drop> Shelf<T> {
    fn new(alloc: Global) -> Shelf<T> {
        Shelf {
            values: BTreeMap::new(alloc),
        }
    }

    /// The value of this name.
    pub fn get(&self, name: &str) -> Result<&T, Fault> {
        self.values.get(name).ok_or(Fault::NoSuch)
    }

    /// The value of this name, to be changed.
    pub fn get_mut(&mut self, name: &str) -> Result<&mut T, Fault> {
        self.values.get_mut(name).ok_or(Fault::NoSuch)
    }

    /// Gives the name to a value, in place of the one that had it.
    pub fn put(&mut self, alloc: Global, name: &str, value: T) -> Result<(), Fault> {
        let name = String::from_str(alloc, name)?;
        self.values.insert(name, value)?;
        Ok(())
    }
}

/// All that rows have made.
#[derive(Drop)]
pub struct Documents<S: DotSet> {
    pub replicas: Shelf<Replica<S>>,
    pub indexes: Shelf<Index<S>>,
    pub states: Shelf<State<S>>,
    pub digests: Shelf<Digest<S>>,
    pub certificates: Shelf<Certificate>,
}

impl<S: DotSet> Documents<S> {
    /// Nothing yet.
    pub fn new(alloc: Global) -> Documents<S> {
        Documents {
            replicas: Shelf::new(alloc),
            indexes: Shelf::new(alloc),
            states: Shelf::new(alloc),
            digests: Shelf::new(alloc),
            certificates: Shelf::new(alloc),
        }
    }

    /// The state of the replica of this name, or else of the index, or else the state of this name.
    pub fn state(&self, name: &str) -> Result<&State<S>, Fault> {
        match self.replica(name) {
            Ok(replica) => Ok(replica.state()),
            Err(_) => self.states.get(name),
        }
    }

    fn replica(&self, name: &str) -> Result<&Replica<S>, Fault> {
        match self.replicas.get(name) {
            Ok(replica) => Ok(replica),
            Err(_) => Ok(self.indexes.get(name)?.replica()),
        }
    }
}
