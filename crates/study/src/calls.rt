// The calls on a study.
ghost use Rattle.std.specs.Prelude.{◌≡◌, ◌*◌, ◌≤◌, [], length, take};
ghost use Rattle.points.specs.Points.{first_above};
ghost use Rattle.study.specs.Calls.{answer_to, pair_ranks, point_in_box, point_named, side_at, unless_wrong};
ghost use Rattle.study.specs.Calls.Call.{ask as asking, raise as raising, lower as lowering, search as searching};
ghost use Rattle.study.specs.History.{event, made};
ghost use Rattle.study.specs.Law.{Accounted, LawOfRuns};
ghost use Rattle.study.specs.Put.{PutOne, strip_told};
ghost use Rattle.study.specs.Values.{written};

use crate::reply::{Refusal, Report};
use crate::seek::Found;
use crate::state::Study;
use crate::values::{counted_from_1, inside, point_of, whole_box, write};
use bisection::{Bounds, Side};
use chains::Chain;
use maps::Map;
use points::{Entry, Ranks, first_above};

// Whether `low` is at most `high`: a refusal names the first coordinate in which it is above.
fn at_most(low: &Ranks, high: &Ranks) -> Result<(), Refusal>
    ensures { result ≡ unless_wrong (first_above low.now high.now) }
{
    match first_above(low, high) {
        None => Ok(()),
        Some(i) => Err(Refusal::Side {
            coordinate: counted_from_1(i),
        }),
    }
}

// A side at a point that was put, with its answer as the footing.
fn side_at(put: Entry) -> Side
    ensures { result ≡ side_at put }
{
    let at = put.point;
    Side {
        at,
        footing: Some(put),
    }
}

impl<M: Map> Study<M> {
    // The point that values name, if a strip of so many cells has room for its answer.
    fn named(&self, values: &[M::Value], cells: usize) -> Result<Ranks, Refusal>
        ensures { result ≡ point_named M.Chain.order M.Map.rules self.now cells values.now }
    {
        let dims = self.map.dims();
        if cells < dims {
            return Err(Refusal::Strip);
        }
        if values.len() != dims {
            return Err(Refusal::Values);
        }
        point_of(&self.map, &self.map.sizes(), values)
    }

    // The point of the box that they name.
    fn named_inside(&self, values: &[M::Value], cells: usize) -> Result<Ranks, Refusal>
        ensures { result ≡ point_in_box M.Chain.order M.Map.rules self.now cells values.now }
    {
        inside(&self.bounds, self.named(values, cells)?)
    }

    // Puts one question, if something is left.
    fn put(&mut self, point: Ranks) -> Result<Ranks, Refusal>
        ensures told { result ≡ answer_to M.Map.rules self.old point }
        ensures moved { PutOne M.Chain.order M.Map.rules self.old point self.new }
    {
        if self.left == 0 {
            return Err(Refusal::Spent { count: 0 });
        }
        self.left -= 1;
        self.map
            .put(point)
            .map_err(|fault| Refusal::Faulted { fault, count: 1 })
    }

    // Writes the answer's values to the strip. The strip is lent, so that whoever writes to it asks for the room.
    fn show(&self, answer: &Ranks, strip: &mut [M::Value])
        requires { M.Map.rules.dims self.now.map ≤ length strip.old }
        ensures { strip.new ≡ written (M.Chain.order.member self.now.map) (take (M.Map.rules.dims self.now.map) answer.now) strip.old }
    {
        write(&self.map, &answer[..self.map.dims()], strip, 0);
    }

    // Puts one question and writes its answer to the strip.
    fn put_and_show(&mut self, point: Ranks, strip: &mut [M::Value]) -> Result<Ranks, Refusal>
        requires { M.Map.rules.dims self.old.map ≤ length strip.old }
        ensures told { result ≡ answer_to M.Map.rules self.old point }
        ensures moved { PutOne M.Chain.order M.Map.rules self.old point self.new }
        ensures shown { strip.new ≡ strip_told M.Chain.order M.Map.rules self.old strip.old result }
    {
        let answer = self.put(point)?;
        self.show(&answer, strip);
        Ok(answer)
    }

    // Writes a pair to the strip: the lower point, its answer, the upper point, its answer.
    fn show_pair(&self, low: &Entry, high: &Entry, strip: &mut [M::Value])
        requires { 4 * M.Map.rules.dims self.now.map ≤ length strip.old }
        ensures { strip.new ≡ written (M.Chain.order.member self.now.map) (pair_ranks (M.Map.rules.dims self.now.map) low.now high.now) strip.old }
    {
        let dims = self.map.dims();
        write(&self.map, &low.point[..dims], strip, 0);
        write(&self.map, &low.answer[..dims], strip, dims);
        write(&self.map, &high.point[..dims], strip, 2 * dims);
        write(&self.map, &high.answer[..dims], strip, 3 * dims);
    }

    // A study of a map, with an allowance of questions. Its box is at first all points.
    pub fn new(map: M, allowance: u32) -> Study<M>
        ensures study { result ≡ made M.Map.rules map allowance }
        ensures law { LawOfRuns M.Chain.order M.Map.rules map allowance }
    {
        let bounds = whole_box(&map.sizes());
        Study {
            map,
            left: allowance,
            bounds,
        }
    }

    // What is left of the allowance.
    pub fn left(&self) -> u32
        ensures { result ≡ self.now.left }
    {
        self.left
    }

    // The box that searches look through, with its footings.
    pub fn bounds(&self) -> Bounds
        ensures { result ≡ self.now.bounds }
    {
        self.bounds
    }

    // Puts the point that the values name, and writes its answer to the strip.
    pub fn ask(&mut self, values: &[M::Value], strip: &mut [M::Value]) -> Result<Report, Refusal>
        ensures { Accounted M.Chain.order M.Map.rules (event (asking values.now) self.old strip.old [] result self.new strip.new []) }
    {
        let point = self.named(values, strip.len())?;
        self.put_and_show(point, strip)?;
        Ok(Report::Answered { count: 1 })
    }

    // Puts a point of the box, writes its answer to the strip, and makes the point the floor if it is at most its answer.
    pub fn raise(&mut self, values: &[M::Value], strip: &mut [M::Value]) -> Result<Report, Refusal>
        ensures { Accounted M.Chain.order M.Map.rules (event (raising values.now) self.old strip.old [] result self.new strip.new []) }
    {
        let point = self.named_inside(values, strip.len())?;
        let answer = self.put_and_show(point, strip)?;
        at_most(&point, &answer)?;
        self.bounds.floor = side_at(Entry { point, answer });
        Ok(Report::Answered { count: 1 })
    }

    // Does the same for the roof, if the answer is at most the point. The two calls share all but the side that they name.
    pub fn lower(&mut self, values: &[M::Value], strip: &mut [M::Value]) -> Result<Report, Refusal>
        ensures { Accounted M.Chain.order M.Map.rules (event (lowering values.now) self.old strip.old [] result self.new strip.new []) }
    {
        let point = self.named_inside(values, strip.len())?;
        let answer = self.put_and_show(point, strip)?;
        at_most(&answer, &point)?;
        self.bounds.roof = side_at(Entry { point, answer });
        Ok(Report::Answered { count: 1 })
    }

    // Searches the box for a point that is its own answer. Each answered question is the next entry of the record.
    pub fn search(
        &mut self,
        strip: &mut [M::Value],
        record: &mut [Entry],
    ) -> Result<Report, Refusal>
        ensures { Accounted M.Chain.order M.Map.rules (event searching self.old strip.old «record».old result self.new strip.new «record».new) }
    {
        if strip.len() < 4 * self.map.dims() {
            return Err(Refusal::Strip);
        }
        let budget = self.left();
        let sought = self.seek(record);
        let count = budget - self.left();
        match sought {
            Ok(Found::Settled(point)) => {
                self.show(&point, strip);
                Ok(Report::Settled { count })
            }
            Ok(
                Found::Pair {
                    low,
                    high,
                    coordinate,
                },
            ) => {
                self.show_pair(&low, &high, strip);
                Ok(Report::Pair { count, coordinate })
            }
            // an arm of its own, beside those that write to the strip: this one leaves it as it is
            Err(halt) => Err(halt.refusal(count)),
        }
    }

    // Ends the study: its map, and what is left.
    pub fn finish(self) -> (M, u32)
        ensures { (result.0 ≡ self.map) × (result.1 ≡ self.left) }
    {
        let Study {
            map,
            left,
            bounds: _,
        } = self;
        (map, left)
    }
}
