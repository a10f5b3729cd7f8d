//! One message in, the messages to be sent out.

use crate::features::asked::{Asked, Texts};
use crate::features::capabilities::{all_folders, put_capabilities};
use crate::features::{completions, definitions, folding, hovers, renames, symbols};
use crate::message::{Id, Method, id_of, method_of, text_at};
use crate::ports::{Examiner, Files};
use crate::server::state::{Phase, Server, folders_of};
use crate::writing::{Out, Refusal, begin_answer, end, refused};
use serde_json::Value;
use std::alloc::AllocError;

/// A list of one message.
fn one(body: Vec<u8>) -> Result<Vec<Vec<u8>>, AllocError> {
    let mut bodies = Vec::new(*body.allocator());
    bodies.push(body)?;
    Ok(bodies)
}

/// Whether a message awaits an answer, even if only to be refused.
fn is_request(message: &Value) -> bool {
    message.get("id").is_some()
}

/// Whether a message answers one of the server's: it has no method, and a result or an error.
fn is_answer(message: &Value) -> bool {
    message.get("result").is_some() || message.get("error").is_some()
}

impl<X: Examiner> Server<'_, X> {
    /// Answers the body of one message with the bodies of those to be sent, in their order.
    ///
    /// What isn't JSON, no request, not served or out of place is refused by the protocol's error codes. Only want of memory is an
    /// error, and the server goes on behind it.
    pub fn answer<F: Files>(
        &mut self,
        message: &[u8],
        files: &mut F,
    ) -> Result<Vec<Vec<u8>>, AllocError> {
        let value = match Value::from_slice(self.alloc, message) {
            Ok(value) => value,
            Err(error) => return self.unread(error.is_memory()),
        };
        self.answer_value(&value, files)
    }

    fn unread(&self, is_memory: bool) -> Result<Vec<Vec<u8>>, AllocError> {
        if is_memory {
            return Err(AllocError);
        }
        one(refused(self.alloc, Id::None, Refusal::Parse)?)
    }

    fn refuse(&self, message: &Value, refusal: Refusal) -> Result<Vec<Vec<u8>>, AllocError> {
        one(refused(self.alloc, id_of(message), refusal)?)
    }

    fn answer_value<F: Files>(
        &mut self,
        message: &Value,
        files: &mut F,
    ) -> Result<Vec<Vec<u8>>, AllocError> {
        let Some(name) = text_at(message, "/method") else {
            if is_answer(message) {
                return Ok(Vec::new(self.alloc));
            }
            return self.refuse(message, Refusal::Request);
        };
        if is_request(message) {
            return self.request(message, name, files);
        }
        match method_of(name) {
            Some(method) => self.notice(message, method, files),
            None => Ok(Vec::new(self.alloc)),
        }
    }

    fn request<F: Files>(
        &mut self,
        message: &Value,
        name: &str,
        files: &mut F,
    ) -> Result<Vec<Vec<u8>>, AllocError> {
        let method = method_of(name);
        if let Some(refusal) = self.out_of_place(method) {
            return self.refuse(message, refusal);
        }
        let Some(method) = method else {
            return self.refuse(message, Refusal::Method);
        };
        match self.result(message, method, files)? {
            Ok(body) => one(body),
            Err(refusal) => self.refuse(message, refusal),
        }
    }

    /// Why a request can't be answered now.
    fn out_of_place(&self, method: Option<Method>) -> Option<Refusal> {
        match self.phase {
            Phase::Waiting if method != Some(Method::Initialize) => Some(Refusal::NotInitialized),
            Phase::Running if method == Some(Method::Initialize) => Some(Refusal::Request),
            Phase::Shut | Phase::Over(_) => Some(Refusal::Request),
            _ => None,
        }
    }

    /// The answer of a request, or what refuses it.
    fn result<F: Files>(
        &mut self,
        message: &Value,
        method: Method,
        files: &mut F,
    ) -> Result<Result<Vec<u8>, Refusal>, AllocError> {
        match method {
            Method::Initialize => self.initialize(message),
            Method::Shutdown => {
                self.phase = Phase::Shut;
                let mut out = begin_answer(self.alloc, id_of(message))?;
                out.null()?;
                Ok(Ok(end(out)?))
            }
            Method::Symbols
            | Method::Definition
            | Method::References
            | Method::Hover
            | Method::Completion
            | Method::Folding
            | Method::PrepareRename
            | Method::Rename => self.look(message, method, files),
            _ => Ok(Err(Refusal::Method)),
        }
    }

    fn initialize(&mut self, message: &Value) -> Result<Result<Vec<u8>, Refusal>, AllocError> {
        self.folders = all_folders(self.alloc, message, self.given)?;
        self.phase = Phase::Running;
        let mut out = begin_answer(self.alloc, id_of(message))?;
        put_capabilities(&mut out)?;
        Ok(Ok(end(out)?))
    }

    /// The answer of a request that looks at texts.
    fn look<F: Files>(
        &mut self,
        message: &Value,
        method: Method,
        files: &mut F,
    ) -> Result<Result<Vec<u8>, Refusal>, AllocError> {
        let folders = folders_of(self.alloc, self.folders.as_slice())?;
        let mut texts = Texts {
            alloc: self.alloc,
            library: &mut self.library,
            files,
            folders: folders.as_slice(),
        };
        let asked = match texts.asked(message)? {
            Some(asked) => asked,
            None => return Ok(Err(Refusal::Params)),
        };
        let mut out = begin_answer(texts.alloc, id_of(message))?;
        match put_result(&mut texts, &asked, method, &mut out)? {
            None => Ok(Ok(end(out)?)),
            Some(refusal) => Ok(Err(refusal)),
        }
    }

    /// What a notification changes.
    fn notice<F: Files>(
        &mut self,
        message: &Value,
        method: Method,
        files: &mut F,
    ) -> Result<Vec<Vec<u8>>, AllocError> {
        if method == Method::Exit {
            self.phase = Phase::Over(if self.phase == Phase::Shut { 0 } else { 1 });
        }
        if self.phase != Phase::Running {
            return Ok(Vec::new(self.alloc));
        }
        match method {
            Method::Opened => self.opened(message, files),
            Method::Changed => self.changed(message, files),
            Method::Closed => self.closed(message),
            Method::Saved | Method::Watched => {
                self.library.forget();
                Ok(Vec::new(self.alloc))
            }
            _ => Ok(Vec::new(self.alloc)),
        }
    }
}

/// Puts what a request is answered with, or tells what refuses it.
fn put_result<F: Files>(
    texts: &mut Texts<'_, F>,
    asked: &Asked<'_>,
    method: Method,
    out: &mut Out,
) -> Result<Option<Refusal>, AllocError> {
    match method {
        Method::Symbols => symbols::put_symbols(texts, asked, out)?,
        Method::Folding => folding::put_folds(texts, asked, out)?,
        Method::Definition => definitions::put_definitions(texts, asked, out)?,
        Method::References => definitions::put_references(texts, asked, out)?,
        Method::Hover => hovers::put_hover(texts, asked, out)?,
        Method::Completion => completions::put_completions(texts, asked, out)?,
        Method::PrepareRename => renames::put_renamed(texts, asked, out)?,
        Method::Rename => return renames::put_edits(texts, asked, out),
        _ => return Ok(Some(Refusal::Method)),
    }
    Ok(None)
}
