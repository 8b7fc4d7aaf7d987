// What a document answers: its meaning, by numbers.
ghost use Rattle.std.specs.Prelude.{◌≡◌, ◌-◌, take, drop};
ghost use Rattle.msc.specs.Meaning.{meaning_of};
ghost use Rattle.msc.specs.Stored.{doc_of, ends_of, end_at, begin_at};

use crate::chart::Chart;
use crate::document::Document;
use crate::event::Event;
use crate::label::Body;

impl Document {
    pub fn instances(&self) -> usize
        ensures { result ≡ (meaning_of (doc_of self.now.tables)).instances }
    {
        self.tables.instances.len()
    }

    #[tactic(auto, using(crate::proofs::Looks::length_charts))]
    pub fn charts(&self) -> usize
        ensures { result ≡ (meaning_of (doc_of self.now.tables)).charts }
    {
        self.tables.charts.len()
    }

    pub fn labels(&self) -> usize
        ensures { result ≡ (meaning_of (doc_of self.now.tables)).labels }
    {
        self.tables.labels.len()
    }

    // The chart of a node; none for an end label or what is no label.
    pub fn chart(&self, label: usize) -> Option<u8>
        ensures { result ≡ (meaning_of (doc_of self.now.tables)).chart label }
    {
        match self.tables.labels.as_slice().get(label)?.body {
            Body::Node { chart, .. } => Some(chart),
            Body::End => None,
        }
    }

    // The labels that may follow a node, or at 64 the start list.
    pub fn list(&self, label: usize) -> &[u8]
        ensures { result.now ≡ (meaning_of (doc_of self.now.tables)).list label }
    {
        if label == 64 {
            return self.tables.start.as_slice();
        }
        let Some(row) = self.tables.labels.as_slice().get(label) else {
            return &[];
        };
        match &row.body {
            Body::End => &[],
            Body::Node { next, .. } => next.as_slice(),
        }
    }

    // The part of an instance in a chart.
    #[tactic(auto, using(crate::proofs::Looks::part_at))]
    pub fn part(&self, chart: usize, instance: usize) -> &[Event]
        ensures { result.now ≡ (meaning_of (doc_of self.now.tables)).drawn chart instance }
    {
        let charts = self.tables.charts.as_slice();
        let events = self.tables.events.as_slice();
        between(
            events,
            begin_of(charts, chart, instance),
            end_of(charts, chart, instance),
        )
    }
}

// Where the part of an instance ends in the table of events; 0 for no such part.
fn end_of(charts: &[Chart], chart: usize, instance: usize) -> usize
    ensures { result ≡ end_at (ends_of charts.now) chart instance }
{
    charts
        .get(chart)
        .and_then(|row| row.ends.get(instance))
        .map_or(0, |end| usize::from(*end))
}

// Where it begins.
fn begin_of(charts: &[Chart], chart: usize, instance: usize) -> usize
    ensures { result ≡ begin_at (ends_of charts.now) chart instance }
{
    match (instance, chart) {
        (0, 0) => 0,
        (0, _) => end_of(charts, chart - 1, 7),
        _ => end_of(charts, chart, instance - 1),
    }
}

// The events from a up to b.
fn between(events: &[Event], a: usize, b: usize) -> &[Event]
    ensures { result.now ≡ take (b - a) (drop a events.now) }
{
    events.get(a..b.min(events.len())).unwrap_or(&[])
}
