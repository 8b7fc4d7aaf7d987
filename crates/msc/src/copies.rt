// Documents are copied whole. A derived clone may fail, and these copies cannot.
ghost use Rattle.std.specs.Prelude.{◌≡◌};

use crate::document::Document;
use crate::tables::Tables;

impl Tables {
    pub fn copied(&self) -> Tables
        ensures { result ≡ self.now }
    {
        Tables {
            words: self.words,
            title: self.title,
            instances: self.instances.copied(),
            messages: self.messages.copied(),
            actions: self.actions.copied(),
            events: self.events.copied(),
            charts: self.charts.copied(),
            graph: self.graph,
            start: self.start,
            labels: self.labels.copied(),
        }
    }
}

impl Document {
    pub fn copied(&self) -> Document
        ensures { result.tables ≡ self.now.tables }
    {
        Document {
            tables: self.tables.copied(),
        }
    }
}
