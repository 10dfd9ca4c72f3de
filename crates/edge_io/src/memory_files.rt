ghost use Rattle.std.specs.Prelude.{◌≡◌, ◌≤◌, ◌<◌, ◌↔◌, ◌⊎◌, Some, None, IsSome, IsNone, IsErr, IfOk, IfSome, OnOk, OnErr, Contains, length, take, drop, ◌+◌, ◌^◌, position, OnSome, IfNone};
ghost use Rattle.std.specs.Str.{bytes_eq};
ghost use Rattle.edge_io.specs.Bytes.{Gives};
ghost use Rattle.edge_io.specs.FailureCounts.{Rose};
ghost use Rattle.edge_io.specs.Held.{contents_of, beginning_of, place_after, rest_at, unread_of, moved_to, after_failure, IsPlaced, IsStarted, IsSureOf, IsSteady};

use super::counts::{count_up, failure, is_listed};
use super::files::{Failed, Files};
use lists::Name;

/// Files in memory. Where two have one name, the first is meant.
#[derive(Drop)]
pub struct MemFiles {
    pub files: Vec<(Name, Vec<u8>)>,
    /// The numbers of the calls that fail, counted from 0.
    pub fails: Vec<u64>,
    /// How many calls there were, as far as `u64` counts.
    pub calls: u64,
    /// How many calls failed, as far as `u64` counts.
    pub faults: u64,
    /// The number of the started file, and how many of its bytes were read.
    pub place: Option<(usize, usize)>,
}

/// The number of the first file with this name.
fn number_of(files: &[(Name, Vec<u8>)], name: &[u8]) -> Option<usize>
    ensures { result ≡ position (λ file. bytes_eq file.0 name.now) files.now }
{
    files.iter().position(|file| file.0.as_slice() == name)
}

/// The start of the first file with this name: its number, and that no byte of it was read.
fn place_of(files: &[(Name, Vec<u8>)], name: &[u8]) -> Option<(usize, usize)>
    ensures begins { result ≡ beginning_of files.now name.now }
    ensures placed { IfSome result (λ place. IsPlaced files.now (Some place)) }
    ensures unread { IfSome result (λ place. rest_at files.now (Some place) ≡ contents_of files.now name.now) }
    ensures found { OnSome result (IsSome (contents_of files.now name.now)) }
    ensures missing { IfNone result (IsNone (contents_of files.now name.now)) }
{
    match number_of(files, name) {
        Some(number) => Some((number, 0)),
        None => None,
    }
}

/// Copies bytes from the front into `buf`, as many as it has room for, and answers how many.
fn copy_front(bytes: &[u8], buf: &mut [u8]) -> usize
    requires { 0 < length buf.old }
    ensures within { result ≤ length buf.new }
    ensures gives { Gives (Some bytes.now) (Some (drop result bytes.now)) (take result buf.new) }
{
    let count = bytes.len().min(buf.len());
    buf[..count].copy_from_slice(&bytes[..count]);
    count
}

/// Copies the next bytes of a file, of which the first `at` were read, and answers how many.
fn copy_next(files: &[(Name, Vec<u8>)], number: usize, at: usize, buf: &mut [u8]) -> usize
    requires placed { IsPlaced files.now (Some (number, at)) }
    requires room { 0 < length buf.old }
    ensures within { result ≤ length buf.new }
    ensures fits { at + result < 2 ^ 64 }
    ensures placed { IsPlaced files.now (Some (number, at + result)) }
    ensures gives { Gives (rest_at files.now (Some (number, at)))
        (rest_at files.now (Some (number, at + result))) (take result buf.new) }
{
    let bytes = files[number].1.as_slice();
    copy_front(&bytes[at..], buf)
}

impl MemFiles {
    /// The files of these names and contents. The calls of `start` and `read` whose numbers are listed fail.
    pub fn new(files: Vec<(Name, Vec<u8>)>, fails: Vec<u64>) -> MemFiles
        ensures files { result.files ≡ files }
        ensures fails { result.fails ≡ fails }
        ensures calls { result.calls ≡ 0 }
        ensures faults { result.faults ≡ 0 }
        ensures place { result.place ≡ None }
    {
        MemFiles {
            files,
            fails,
            calls: 0,
            faults: 0,
            place: None,
        }
    }
}

impl Files for MemFiles {
    ghost holds = { λ s name. contents_of s.files.items name };

    ghost rest = { unread_of };

    ghost started = { IsStarted };

    ghost starts = { λ _. None };

    ghost sure = { IsSureOf };

    ghost steady = { IsSteady };

    ghost faults = { λ s. s.faults };

    fn start(&mut self, name: &[u8]) -> Result<(), Failed>
        ensures fails { IsErr result ↔ (Contains self.old.fails.items self.old.calls
            ⊎ IsNone (contents_of self.old.files.items name.now)) }
        ensures ok { OnOk result (self.new ≡ moved_to self.old (beginning_of self.old.files.items name.now)) }
        ensures err { OnErr result (self.new ≡ after_failure self.old) }
        ensures started { OnOk result (IsStarted self.new) }
        ensures rest { OnOk result (unread_of self.new ≡ contents_of self.old.files.items name.now) }
        ensures rose { OnErr result (Rose self.old.faults self.new.faults) }
    {
        let listed = is_listed(&self.fails, self.calls);
        count_up(&mut self.calls);
        self.place = place_of(&self.files, name);
        if listed || self.place.is_none() {
            self.place = None;
            return Err(failure(&mut self.faults));
        }
        Ok(())
    }

    fn read(&mut self, buf: &mut [u8]) -> Result<usize, Failed>
        requires started { IsStarted self.old }
        requires room { 0 < length buf.old }
        ensures fails { IsErr result ↔ Contains self.old.fails.items self.old.calls }
        ensures ok { IfOk result (λ count. self.new ≡ moved_to self.old (place_after self.old.place count)) }
        ensures err { OnErr result (self.new ≡ after_failure self.old) }
        ensures started { OnOk result (IsStarted self.new) }
        ensures within { IfOk result (λ count. count ≤ length buf.new) }
        ensures gives { IfOk result (λ count. Gives (unread_of self.old) (unread_of self.new) (take count buf.new)) }
        ensures rose { OnErr result (Rose self.old.faults self.new.faults) }
    {
        let listed = is_listed(&self.fails, self.calls);
        count_up(&mut self.calls);
        let Some((number, at)) = self.place else {
            unreachable!()
        };
        if listed {
            self.place = None;
            return Err(failure(&mut self.faults));
        }
        let count = copy_next(&self.files, number, at, buf);
        self.place = Some((number, at + count));
        Ok(count)
    }
}
