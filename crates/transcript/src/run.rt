// The calls of a plan, one after the other, on a study of its map.
ghost use Rattle.std.specs.Prelude.{◌≡◌, ◌++◌, map as mapped, IfOk, OnOk, string_bytes};
ghost use Rattle.transcript.specs.Lines.{done_name, left_line};
ghost use Rattle.transcript.specs.Making.{Made, Told};
ghost use Rattle.transcript.specs.Opened.{Opened};
ghost use Rattle.transcript.specs.Printed.{blank_record, blank_strip};
ghost use Rattle.transcript.specs.Ran.{CallsTold};
ghost use Rattle.transcript.specs.Studied.{Studied};
ghost use Rattle.transcript.specs.Transcript.{planned_call};

use crate::lines::{kind_line, left_line, reply_line};
use crate::session::Session;
use crate::values::Printed;
use chains::Chain;
use maps::Map;
use points::Entry;
use sheets::Call;
use std::alloc::{AllocError, Global};
use study::{Refusal, Report, Study};

// How many values a strip holds: a pair of eight coordinates takes four times eight.
const CELLS: usize = 32;

// How many entries a search may write.
const ENTRIES: usize = 512;

impl<V: Printed, M: Map + Chain<Value = V> + Drop> Session<V, M> {
    // A session on a new study of a map. Its text begins with the kind of the map's chain.
    fn new(alloc: Global, map: M, allowance: u32) -> Result<Session<V, M>, AllocError>
        ensures { IfOk result (Opened M.Chain.order M.Map.rules M.Chain.KIND V.Printed.nothing map allowance) }
    {
        let mut strip = Vec::new(alloc);
        strip.resize(CELLS, V::blank())?;
        let mut log = Vec::new(alloc);
        log.resize(ENTRIES, Entry::default())?;
        let mut text = String::new(alloc);
        kind_line(&mut text, M::kind_letter())?;
        Ok(Session {
            dims: map.dims(),
            study: Study::new(map, allowance),
            strip,
            log,
            text,
        })
    }

    // Makes a call: what it is called if it is answered, and its reply.
    fn make(&mut self, call: &Call<V>) -> (&'static str, Result<Report, Refusal>)
        ensures name { result.0.now ≡ done_name (planned_call call.now) }
        ensures made { Made M.Chain.order M.Map.rules (planned_call call.now) self.old result.1 self.new }
        ensures text { self.new.text ≡ self.old.text }
    {
        match call {
            Call::Ask(values) => ("answer", self.study.ask(values, &mut self.strip)),
            Call::Raise(values) => ("raised", self.study.raise(values, &mut self.strip)),
            Call::Lower(values) => ("lowered", self.study.lower(values, &mut self.strip)),
            Call::Search => ("settled", self.study.search(&mut self.strip, &mut self.log)),
        }
    }

    // Makes a call, and appends its line.
    fn call(&mut self, call: &Call<V>) -> Result<(), AllocError>
        ensures { Told M.Chain.order M.Map.rules (planned_call call.now) self.old V.Printed.bytes result self.new }
    {
        let (done, reply) = self.make(call);
        reply_line(&mut self.text, self.dims, done, reply, &self.strip)
    }

    // Makes calls one after the other, and appends their lines.
    fn calls(&mut self, calls: &[Call<V>]) -> Result<(), AllocError>
        requires { self.old.dims ≡ M.Map.rules.dims self.old.study.map }
        ensures { OnOk result (CallsTold M.Chain.order M.Map.rules V.Printed.bytes (mapped planned_call calls.now) self.old self.new) }
    {
        for call in calls {
            self.call(call)?;
        }
        Ok(())
    }

    // Ends the study: the whole text, whose last line tells what is left of the allowance.
    fn finish(self) -> Result<String, AllocError>
        ensures { IfOk result (λ text. string_bytes text ≡ string_bytes self.text ++ left_line self.study.left) }
    {
        let Session {
            study,
            mut text,
            ..
        } = self;
        let (_, left) = study.finish();
        left_line(&mut text, left)?;
        Ok(text)
    }
}

// Studies a map by calls, and gives the text of them all.
pub(crate) fn study_map<V: Printed, M: Map + Chain<Value = V> + Drop>(
    alloc: Global,
    map: M,
    allowance: u32,
    calls: &[Call<V>],
) -> Result<String, AllocError>
    ensures { IfOk result (λ text. Studied M.Chain.order M.Map.rules V.Printed.bytes M.Chain.KIND map allowance (blank_strip V.Printed.nothing) blank_record (mapped planned_call calls.now) (string_bytes text)) }
{
    let mut session = Session::new(alloc, map, allowance)?;
    session.calls(calls)?;
    session.finish()
}
