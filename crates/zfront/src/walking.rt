//! Requests that read many nodes of the tree.
//!
//! # Why
//!
//! A walk is outside the log, as a look is: it changes nothing, and a call that reads all nodes
//! would be one of the script and of the chain, too. The nodes of a session are read from the
//! service's own list of them.

ghost use Rattle.std.specs.Prelude.{◌≡◌, ◌++◌, codes, map, IfOk};
ghost use Rattle.std.specs.List.{list_any};
ghost use Rattle.std.specs.Str.{bytes_eq};
ghost use Rattle.zpath.specs.Grammar.{text_of};
ghost use Rattle.zresponses.specs.Answers as answers;
ghost use Rattle.zresponses.specs.Stats.{int_of};
ghost use Rattle.zfront.specs.Walks as table;
ghost use Rattle.zfront.specs.Walks.{beginning_with, count_below, ephemerals, number_below, walked};

use crate::inner::Inner;
use std::alloc::Global;
use zalloc::Memory;
use zjute::{Asked, Body, Bytes, Code, Texts};
use zpath::Path;
use zresponses::{Answer, path_reported};
use ztree::SessionId;
use ztree_service::TreeService;

impl<T: TreeService> Inner<T> {
    // Returns the answer to a request, if it is a walk.
    pub(crate) fn walk(&self, session: SessionId, asked: &Asked) -> Result<Option<Answer>, Memory>
        ensures { IfOk result (λ answer. answer ≡ walked session asked.now self.now.tree) }
    {
        match asked {
            Asked::GetEphemerals(None) => Ok(Some(names_answer(self.ephemerals(session, b"")?))),
            Asked::GetEphemerals(Some(front)) => {
                Ok(Some(names_answer(self.ephemerals(session, front.as_slice())?)))
            }
            Asked::GetAllChildrenNumber(top) => Ok(Some(self.number_below(top)?)),
            _ => Ok(None),
        }
    }

    // Returns the paths of the session's ephemeral nodes that begin with this text.
    fn ephemerals(&self, session: SessionId, front: &[u8]) -> Result<Vec<Bytes>, Memory>
        ensures { IfOk result
            (λ texts. texts.items ≡ ephemerals session front.now self.now.tree) }
    {
        let owned = self.service.owned(session)?;
        let mut texts = texts_of(self.alloc, &owned)?;
        keep_beginning(front, &mut texts);
        Ok(texts)
    }

    // Returns how many nodes are strictly below a path.
    fn number_below(&self, top: &Option<Bytes>) -> Result<Answer, Memory>
        ensures { IfOk result (λ answer. answer ≡ number_below top.now self.now.tree) }
    {
        let Some(top) = top else {
            return Ok(failed(Code::MarshallingError));
        };
        let paths = self.service.paths()?;
        let texts = texts_of(self.alloc, &paths)?;
        number_answer(self.alloc, top.as_slice(), texts)
    }
}

// Returns the texts of paths.
fn texts_of(alloc: Global, paths: &[Path]) -> Result<Vec<Bytes>, Memory>
    ensures { IfOk result (λ texts. texts.items ≡ map text_of paths.now) }
{
    let mut texts = Vec::new(alloc);
    for path in paths {
        texts.push(path_reported(alloc, path)?)?;
    }
    Ok(texts)
}

// Retains the texts that begin with this one.
fn keep_beginning(front: &[u8], texts: &mut Vec<Bytes>)
    ensures { texts.new.items ≡ beginning_with front.now texts.old.items }
{
    texts.retain(|text| text.as_slice().starts_with(front));
}

// Returns the answer with the number of texts below one, if it is among them.
fn number_answer(alloc: Global, top: &[u8], texts: Vec<Bytes>) -> Result<Answer, Memory>
    ensures { IfOk result (λ answer. answer ≡ table.number_answer top.now texts.items) }
{
    if !has_text(top, &texts) {
        return Ok(failed(Code::NoNode));
    }
    let count = count_below(alloc, top, texts)?;
    Ok(done(Body::Number(int_of(count))))
}

// Returns a number as an `int` of zookeeper.jute.
fn int_of(number: usize) -> i32
    ensures { result ≡ int_of number }
{
    ((number % 4_294_967_296) as u32).cast_signed()
}

// Returns whether a text is among these.
fn has_text(text: &[u8], texts: &[Bytes]) -> bool
    ensures { result ≡ list_any (bytes_eq text.now) texts.now }
{
    for one in texts {
        if text == one.as_slice() {
            return true;
        }
    }
    false
}

// Returns how many of these paths are strictly below one.
fn count_below(alloc: Global, top: &[u8], mut texts: Vec<Bytes>) -> Result<usize, Memory>
    ensures { IfOk result (λ count. count ≡ count_below top.now texts.items) }
{
    if let [b'/'] = top {
        return Ok(texts.len().saturating_sub(1));
    }
    let mut front = Vec::from_slice(alloc, top)?;
    front.push(b'/')?;
    keep_beginning(&front, &mut texts);
    Ok(texts.len())
}

// Returns the answer to a request that was done.
fn done(body: Body) -> Answer
    ensures { result ≡ answers.done body }
{
    Answer {
        code: Code::Ok,
        body,
    }
}

// Returns the answer to a request that wasn't done.
pub(crate) fn failed(code: Code) -> Answer
    ensures { result ≡ answers.failed code }
{
    Answer {
        code,
        body: Body::Nothing,
    }
}

// Returns the answer with names. More than a frame can hold give an error.
fn names_answer(names: Vec<Bytes>) -> Answer
    ensures { result ≡ answers.names_answer names.items }
{
    if names.len() > zjute::MAX_FRAME as usize {
        return failed(Code::MarshallingError);
    }
    match Texts::new(names) {
        Some(names) => done(Body::Names(names)),
        None => unreachable!(),
    }
}
