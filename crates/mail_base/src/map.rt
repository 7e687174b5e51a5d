//! A finite map on the heap.

ghost use Rattle.std.specs.Prelude.{◌≡◌, []};

use std::alloc::Global;
use std::collections::BTreeMap;
use std::marker::Model;

/// Values by key. Contracts see them as the list of pairs, which rises by key. A type that holds one copies it item by
/// item.
#[derive(Drop)]
pub struct Map<K: Ord, V> {
    content: BTreeMap<K, V>,
}

impl<K: Ord, V> Model for Map<K, V> {
    ghost use Rattle.std.specs.Prelude.{List};

    ghost Value = { List (K × V) };

    ghost view = { λ map. map.content.entries };
}

impl<K: Ord, V> Map<K, V> {
    /// No pairs. It takes no memory.
    pub fn new(alloc: Global) -> Self
        ensures { result ≡ [] }
    {
        Map {
            content: BTreeMap::new(alloc),
        }
    }

    /// The pairs of a `BTreeMap`, which the value then holds. It takes no memory.
    pub fn of(content: BTreeMap<K, V>) -> Self
        ensures { result ≡ content.entries }
    {
        Map { content }
    }

    /// The pairs, to read them.
    pub fn as_map(&self) -> &BTreeMap<K, V>
        ensures { result.now.entries ≡ self.now }
    {
        &self.content
    }

    /// The pairs, given up to change them.
    pub fn into_map(self) -> BTreeMap<K, V>
        ensures { result.entries ≡ self }
    {
        self.content
    }
}
