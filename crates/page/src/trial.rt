// A trial over a page: unless it is kept, the page is put back when the trial ends.
ghost use Rattle.std.specs.Prelude.{◌≡◌, Some, None};
ghost use Rattle.page.specs.Steps.{put_back};

use crate::format::PAGE_LENGTH;

pub(crate) struct Trial<'a> {
    pub(crate) page: &'a mut [u8; PAGE_LENGTH],
    // what to put back; nothing once the trial is kept
    saved: Option<[u8; PAGE_LENGTH]>,
}

// That a reference keeps its name says that it is the same one, so that the caller knows whose bytes change.
impl<'a> Trial<'a> {
    // Begins a trial, and saves the page.
    pub(crate) fn begin(page: &'a mut [u8; PAGE_LENGTH]) -> Trial<'a>
        ensures lends { result.page.now ≡ page.old }
        ensures same { result.page.ghost_name ≡ page.entry.ghost_name }
        ensures saves { result.saved ≡ Some page.old }
    {
        let saved = Some(*page);
        Trial { page, saved }
    }

    // Keeps what was done to the page.
    pub(crate) fn keep(&mut self)
        ensures lends { self.new.page.now ≡ self.old.page.now }
        ensures same { self.new.page.ghost_name ≡ self.old.page.ghost_name }
        ensures kept { self.new.saved ≡ None }
    {
        self.saved = None;
    }
}

impl Drop for Trial<'_> {
    fn drop(self)
        ensures { self.exit.0.now ≡ put_back self.entry.saved self.entry.page.now }
    {
        let Trial { page, saved } = self;
        if let Some(saved) = saved {
            *page = saved;
        }
    }
}
