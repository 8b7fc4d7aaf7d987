// What has been read ahead of the graph. The events of all charts stand in one table, part behind part: in fixed memory,
// a table for each of 64 charts, of up to 64 events each, would take four times the room.
// A call that adds to it answers whether it was done, which is all that there is to tell.
ghost use Rattle.std.specs.Prelude.{◌≡◌, ◌<◌, ◌≤◌, List, [], length, map, if◌then◌else◌, nat_le, nat_lt, IfSome};
ghost use Rattle.msc.specs.Doc.{chart_names};
ghost use Rattle.msc.specs.Spelling.{has};
ghost use Rattle.msc.specs.Stored.{charts_from, doc_of};
ghost use Rattle.msc.specs.declared.chart.Chart.{Chart};
ghost use Rattle.msc.specs.declared.event.Event.{Event};
ghost use Rattle.forms.specs.Drafts.{no_draft, at_hand, so_far, with_instance, with_event, opened, closed, charted};
ghost use Rattle.forms.specs.Reading.{has_room, has_room_out};
ghost use Rattle.draft.specs.Drafting.{unopened, numbered, message_in, action_in, document_of};

use crate::counts::outs;
use msc::chart::Chart;
use msc::event::Event;
use msc::label::Label;
use msc::list::Alternatives;
use msc::name::Name;
use msc::search::{contains, find};
use msc::table::Table;
use msc::tables::Tables;
use msc::words::Words;
use std::marker::Model;

#[derive(Drop)]
pub struct Draft {
    instances: Table<Name, 8>,
    messages: Table<Name, 128>,
    actions: Table<Name, 128>,
    events: Table<Event, 1024>,
    charts: Table<Chart, 64>,
    // where the chart at hand begins
    first: usize,
    // where its closed parts end
    ends: Table<u16, 8>,
    // where its open part begins
    open: usize,
}

impl Model for Draft {
    ghost use Rattle.forms.specs.Drafts.{Draft as Drafted};

    ghost Value = { Drafted };

    ghost use Rattle.draft.specs.Laid.{draft_of, Laid};

    ghost view = { draft_of };

    ghost invariant = { Laid };
}

impl Draft {
    pub fn new() -> Draft
        ensures { result ≡ no_draft }
    {
        let blank = Name::blank();
        Draft {
            instances: Table::new(blank),
            messages: Table::new(blank),
            actions: Table::new(blank),
            events: Table::new(Event::Action { name: 0 }),
            charts: Table::new(Chart {
                name: blank,
                ends: [0; 8],
            }),
            first: 0,
            ends: Table::new(0),
            open: 0,
        }
    }

    // Whether one instance more may be declared.
    pub fn has_room_instance(&self) -> bool
        ensures { result ≡ nat_lt (length self.now.instances) 8 }
    {
        self.instances.len() < 8
    }

    // Whether one chart more may be declared.
    pub fn has_room_chart(&self) -> bool
        ensures { result ≡ nat_lt (length self.now.charts) 64 }
    {
        self.charts.len() < 64
    }

    // Whether a chart has this name.
    pub fn has_chart(&self, w: &[u8]) -> bool
        ensures { result ≡ has (chart_names self.now.charts) w.now }
    {
        contains(self.charts.as_slice(), w)
    }

    // The names of the instances.
    pub fn instances(&self) -> &[Name]
        ensures is { result.now ≡ self.now.instances }
        ensures few { length self.now.instances ≤ 8 }
    {
        self.instances.as_slice()
    }

    // The names of the messages, each at its number.
    pub fn messages(&self) -> &[Name]
        ensures is { result.now ≡ self.now.messages }
        ensures few { length self.now.messages ≤ 128 }
    {
        self.messages.as_slice()
    }

    // The names of the actions, likewise.
    pub fn actions(&self) -> &[Name]
        ensures is { result.now ≡ self.now.actions }
        ensures few { length self.now.actions ≤ 128 }
    {
        self.actions.as_slice()
    }

    // The number of a message name, which is new or stood before; none where 128 stand.
    pub fn message(&mut self, name: Name) -> Option<u8>
        ensures is { (self.new, result) ≡ message_in self.old name }
        ensures few { length self.new.messages ≤ 128 }
        ensures within { IfSome result (λ k. k < 128) }
    {
        number(&mut self.messages, name)
    }

    // The same of an action name. Both are one call of `number`; which table of the draft it goes to cannot be a parameter.
    pub fn action(&mut self, name: Name) -> Option<u8>
        ensures is { (self.new, result) ≡ action_in self.old name }
        ensures few { length self.new.actions ≤ 128 }
        ensures within { IfSome result (λ k. k < 128) }
    {
        number(&mut self.actions, name)
    }

    // How many parts of the chart at hand are closed.
    pub fn parts(&self) -> usize
        ensures is { result ≡ length self.now.parts }
        ensures few { result ≤ 8 }
    {
        self.ends.len()
    }

    // One instance more, unless there are eight.
    pub fn push_instance(&mut self, name: Name) -> bool
        ensures done { result ≡ nat_lt (length self.old.instances) 8 }
        ensures is { self.new ≡ (if result then with_instance self.old name else self.old) }
        ensures few { length self.new.instances ≤ 8 }
    {
        self.instances.push(name)
    }

    // The events of the chart at hand.
    fn at_hand(&self) -> &[Event]
        ensures { result.now ≡ at_hand self.now }
    {
        let all = self.events.as_slice();
        &all[self.first..]
    }

    // How many events there are, of all charts.
    pub fn so_far(&self) -> usize
        ensures is { result ≡ so_far self.now }
        ensures few { result ≤ 1024 }
    {
        self.events.len()
    }

    // Whether one event more fits the chart and the document.
    pub fn has_room(&self) -> bool
        ensures { result ≡ has_room [] self.now }
    {
        self.at_hand().len() < 64 && self.so_far() < 1024
    }

    // Whether one out more fits the chart and the document.
    pub fn has_room_out(&self) -> bool
        ensures { result ≡ has_room_out [] self.now }
    {
        self.has_room() && outs(self.at_hand()) < 32
    }

    // One event more in the open part, unless the table is full.
    pub fn push_event(&mut self, e: Event) -> bool
        ensures done { result ≡ nat_lt (so_far self.old) 1024 }
        ensures is { self.new ≡ (if result then with_event self.old e else self.old) }
    {
        self.events.push(e)
    }

    // The open part is closed, unless eight are.
    pub fn close_part(&mut self) -> bool
        ensures done { result ≡ nat_lt (length self.old.parts) 8 }
        ensures is { self.new ≡ (if result then closed self.old else self.old) }
        ensures few { length self.new.parts ≤ 8 }
    {
        let end = self.events.len();
        let fits = self.ends.push(end as u16);
        if fits {
            self.open = end;
        }
        fits
    }

    // What has been read of an open part is left out.
    fn drop_part(&mut self)
        ensures { self.new ≡ unopened self.old }
    {
        self.events.truncate(self.open);
    }

    // The part of instance i is opened, with empty parts ahead of it where it needs them.
    pub fn open_part(&mut self, i: usize) -> bool
        ensures done { result ≡ nat_le i 8 }
        ensures is { self.new ≡ (if result then opened self.old i else self.old) }
    {
        if i > 8 {
            return false;
        }
        self.drop_part();
        for _ in self.parts()..i {
            self.close_part();
        }
        true
    }

    // The chart at hand is declared under a name, unless there are 64 charts.
    pub fn end_chart(&mut self, name: Name) -> bool
        ensures done { result ≡ nat_lt (length self.old.charts) 64 }
        ensures is { self.new ≡ (if result then charted self.old name else self.old) }
    {
        if !self.has_room_chart() {
            return false;
        }
        self.open_part(8);
        let mut ends = [0; 8];
        ends.copy_from_slice(self.ends.as_slice());
        self.charts.push(Chart { name, ends });
        self.first = self.open;
        self.ends.truncate(0);
        true
    }

    // The rows of the charts, which go by the table of events.
    pub fn charts(&self) -> &Table<Chart, 64>
        ensures names { map (λ (c : Chart). c.name) result.now ≡ chart_names self.now.charts }
        ensures charts { (es : List Event) × (charts_from es 0 result.now ≡ self.now.charts) }
    {
        &self.charts
    }

    // The document of what has been read, with its reserved words, its title and its graph.
    pub fn into_tables(
        self,
        words: &Words,
        title: Name,
        graph: Name,
        start: Alternatives,
        labels: Table<Label, 64>,
    ) -> Tables
        ensures { doc_of result ≡ document_of self words.now title graph start labels }
    {
        Tables {
            words: *words,
            title,
            instances: self.instances,
            messages: self.messages,
            actions: self.actions,
            events: self.events,
            charts: self.charts,
            graph,
            start,
            labels,
        }
    }
}

// The number of a name among names, to which it is added where it is new and there is room.
fn number(names: &mut Table<Name, 128>, name: Name) -> Option<u8>
    ensures is { (names.new, result) ≡ numbered names.old name }
    ensures few { length names.new ≤ 128 }
    ensures within { IfSome result (λ k. k < 128) }
{
    match find(names.as_slice(), name.as_bytes()) {
        Some(k) => Some(k as u8),
        None => {
            let k = names.len() as u8;
            names.push(name).then_some(k)
        }
    }
}
