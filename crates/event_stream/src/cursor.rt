ghost use Rattle.smf_read.specs.Remaining.{remaining, all_of};

use crate::stream::EventStream;
use mt_base::Event;
use smf_read::Cursor;

impl<'a> EventStream<'a> for Cursor<'a> {
    ghost all = { all_of };

    ghost rest = { remaining };

    fn next(&mut self) -> Option<Event<'a>> {
        Cursor::next(self)
    }

    fn rewind(&mut self) {
        self.restart();
    }
}
