// The text of charts.
ghost use Rattle.std.specs.Prelude.{◌≡◌, slice_index_or};
ghost use Rattle.std.specs.List.{flat_map};
ghost use Rattle.msc.specs.Meaning.{no_chart};
ghost use Rattle.msc.specs.Shortest.{inst_tokens};
ghost use Rattle.writing.specs.Pens.{penned};
ghost use Rattle.writing.specs.Walks.{event_of, part_of, parts_of, chart_of};

use crate::pen::Pen;
use msc::event::Event;
use msc::name::Name;
use msc::words::Keyword;

impl<'a> Pen<'a> {
    // inst name ; for each instance
    pub(crate) fn instances(&mut self, names: &[Name])
        ensures { self.new ≡ penned self.old (flat_map inst_tokens names.now) }
    {
        for name in names {
            self.titled(Keyword::Inst, name.as_bytes());
        }
    }

    // out name to name ; or in name from name ; or action name ;
    #[tactic(auto, using(crate::proofs::Pages::follow))]
    pub(crate) fn event(&mut self, e: Event)
        ensures { self.new ≡ penned self.old (event_of self.old.document e) }
    {
        match e {
            Event::Out { name, to } => {
                self.keyword(Keyword::Out);
                self.word(self.message(name as usize));
                self.titled(Keyword::To, self.instance(to as usize));
            }
            Event::In { name, from } => {
                self.keyword(Keyword::In);
                self.word(self.message(name as usize));
                self.titled(Keyword::From, self.instance(from as usize));
            }
            Event::Action { name } => self.titled(Keyword::Action, self.action(name as usize)),
        }
    }

    // the events of a part
    pub(crate) fn events(&mut self, events: &[Event])
        ensures { self.new ≡ penned self.old (flat_map (event_of self.old.document) events.now) }
    {
        for e in events {
            self.event(*e);
        }
    }

    // instance name ; events endinstance ; unless there are no events
    pub(crate) fn part(&mut self, i: usize, events: &[Event])
        ensures { self.new ≡ penned self.old (part_of self.old.document i events.now) }
    {
        if events.is_empty() {
            return;
        }
        self.titled(Keyword::Instance, self.instance(i));
        self.events(events);
        self.closing(Keyword::Endinstance);
    }

    // the parts of a chart; by number, since no table of a document holds a part
    pub(crate) fn parts(&mut self, chart: usize)
        ensures { self.new ≡ penned self.old (parts_of self.old.document 0 (slice_index_or self.old.document.charts chart no_chart).parts) }
    {
        let document = self.document;
        for i in 0..8 {
            self.part(i, document.part(chart, i));
        }
    }

    // msc name ; parts endmsc ;
    #[tactic(auto, using(crate::proofs::Pages::follow, crate::proofs::Forms::chart_name_at))]
    pub(crate) fn chart(&mut self, chart: usize)
        ensures { self.new ≡ penned self.old (chart_of self.old.document (slice_index_or self.old.document.charts chart no_chart)) }
    {
        self.titled(Keyword::Msc, self.chart_name(chart));
        self.parts(chart);
        self.closing(Keyword::Endmsc);
    }

    // every chart; by number, since a row does not tell where its first part begins
    pub(crate) fn charts(&mut self)
        ensures { self.new ≡ penned self.old (flat_map (chart_of self.old.document) self.old.document.charts) }
    {
        for i in 0..self.document.charts() {
            self.chart(i);
        }
    }
}
