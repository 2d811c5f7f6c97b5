// Memo: a layer that keeps the answers of the map below.
pub mod store;

ghost use Rattle.std.specs.Prelude.{◌≡◌, []};
ghost use Rattle.std.specs.List.{find};
ghost use Rattle.std.specs.Option.{option_copied};
ghost use Rattle.points.specs.Points.{Monotone};
ghost use Rattle.maps.specs.Recall.{answers_by, memo_rules, stored, stored_with};
ghost use Rattle.maps.specs.MemoLaws.{memo_laws};

use crate::layer::deeper;
use crate::map::Map;
use arrayvec::ArrayVec;
use chains::Over;
use points::{Entry, Fault, Ranks, is_point};
pub use store::Memo;

// Whether an entry answers a question, by a point.
fn answers(entry: &Entry, sizes: &Ranks, question: &Ranks) -> bool
    ensures { result ≡ answers_by sizes.now question.now entry.now }
{
    entry.point == *question && is_point(sizes, &entry.answer)
}

// The first stored entry that answers a question, if there is one.
fn recall<'a>(entries: &'a [Entry], sizes: &Ranks, question: &Ranks) -> Option<&'a Entry>
    ensures { option_copied result ≡ find (answers_by sizes.now question.now) entries.now }
{
    entries.iter().find(|entry| answers(entry, sizes, question))
}

impl<M: Map> Memo<M> {
    // A memo over a map, with nothing stored.
    pub fn new(map: M) -> Memo<M>
        ensures over { result.map ≡ map }
        ensures empty { stored result ≡ [] }
        ensures monotone { Monotone (M.Map.rules.meaning map) → Monotone ((memo_rules M.Map.rules).meaning result) }
    {
        Memo {
            map,
            entries: ArrayVec::new(),
        }
    }

    // The map below, given back; what was stored is let go.
    pub fn into_map(self) -> M
        ensures { result ≡ self.map }
    {
        self.map
    }

    // Stores one more answer, if there is room.
    fn store(&mut self, entry: Entry)
        ensures map { self.new.map ≡ self.old.map }
        ensures keeps { stored self.new ≡ stored_with (stored self.old) entry }
    {
        let _full = self.entries.try_push(entry);
    }
}

impl<M: Map> Over for Memo<M> {
    type Base = M;

    ghost base = { λ m. m.map };

    fn base(&self) -> &M {
        &self.map
    }
}

impl<M: Map> Map for Memo<M> {
    ghost rules = { memo_rules M.Map.rules };

    ghost rules_laws = { memo_laws M.Map.rules M.Map.rules_laws };

    fn dims(&self) -> usize {
        self.map.dims()
    }

    fn sizes(&self) -> Ranks {
        self.map.sizes()
    }

    fn put(&mut self, question: Ranks) -> Result<Ranks, Fault> {
        let sizes = self.map.sizes();
        if !is_point(&sizes, &question) {
            return Err(Fault::OUTSIDE);
        }
        if let Some(entry) = recall(&self.entries, &sizes, &question) {
            return Ok(entry.answer);
        }
        let answer = self.map.put(question).map_err(deeper)?;
        self.store(Entry {
            point: question,
            answer,
        });
        Ok(answer)
    }
}
