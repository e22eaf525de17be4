// What the driver holds from one record to the next: handles and files (docs/conformance.md).
use crate::body::{Body, FILE_COUNT, SLOT_COUNT};
use crate::line::{FileState, Line};
use crate::record;
use crate::tag::Tag;
use file::{FileRecord, Handle};

// The longest file.
pub const LONGEST_FILE: usize = 65536;

// A file: room for the longest, its length, which counts as the longest above that, and its record, which may say any size.
// That the length is in range is no ghost field, since an array beside one cannot be lent as `&mut` here.
#[derive(Drop)]
pub struct PlanFile {
    room: [u8; LONGEST_FILE],
    pub len: usize,
    pub record: FileRecord,
}

impl PlanFile {
    // A file of no bytes.
    fn new() -> PlanFile {
        PlanFile {
            room: [0; LONGEST_FILE],
            len: 0,
            record: FileRecord::of_size(0),
        }
    }

    pub fn bytes(&self) -> &[u8] {
        &self.room[..self.len.min(LONGEST_FILE)]
    }

    pub fn bytes_mut(&mut self) -> &mut [u8] {
        let end = self.len.min(LONGEST_FILE);
        &mut self.room[..end]
    }

    fn state(&self) -> FileState {
        FileState {
            size: self.record.size,
            sum: checksum::bytes(self.bytes()),
        }
    }
}

// What a record says: a tag, and a body.
#[derive(Clone, Copy)]
pub struct Record<'a> {
    pub tag: Tag,
    pub body: Body<'a>,
}

#[derive(Drop)]
pub struct Driver {
    slots: [Handle; SLOT_COUNT],
    files: [PlanFile; FILE_COUNT],
}

impl Driver {
    // Each slot has the handle of a refused open at first, and each file no bytes.
    pub fn new() -> Driver {
        let refused = Handle::open(4);
        Driver {
            slots: [refused.handle; SLOT_COUNT],
            files: [PlanFile::new(), PlanFile::new()],
        }
    }

    // Does what a record says, puts the answer's handle into its slot, and answers the line.
    pub fn step(&mut self, record: Record) -> Line {
        let Record { tag, body } = record;
        let slot = body.slot();
        let file = &mut self.files[record::file_of(tag, body)];
        let answer = record::perform(tag, body, self.slots[slot], file);
        if let Some(handle) = answer.handle {
            self.slots[slot] = handle;
        }
        Line {
            tag,
            answer,
            files: [self.files[0].state(), self.files[1].state()],
        }
    }
}
