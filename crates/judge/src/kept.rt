//! What is kept from line to line.
ghost use Rattle.std.specs.Prelude.{◌≡◌, ◌⊎◌, ℕ, List, Err, IfOk, IsSome, IsTrue, MatchOption, OnOk};
ghost use Rattle.jsonb.specs.HexText.{IsHexText};
ghost use Rattle.judge.specs.inner.KeptKeywords.{IsKept, IsVerdictOn, IsVerdictOnTexts};

use crate::hex_pair::read_hex;
use flat_keywords::{Checks, Draft, JudgeError};
use std::alloc::{AllocError, Global};

// The keywords of the last pair that was judged: their hex text, and their checks or what they are refused for.
#[derive(Drop)]
pub(crate) struct LastKeywords {
    text: Vec<u8>,
    outcome: Option<Result<Checks, JudgeError>>,
}

// The last keywords, and buffers for the bytes of a pair.
#[derive(Drop)]
pub(crate) struct KeptPair {
    last: LastKeywords,
    keywords: Vec<u8>,
    document: Vec<u8>,
}

impl LastKeywords {
    // There are none yet.
    fn none(alloc: Global) -> LastKeywords
        ensures { (draft : Draft) → IsKept draft result }
    {
        LastKeywords {
            text: Vec::new(alloc),
            outcome: None,
        }
    }

    // Whether the last keywords had this hex text.
    fn have(&self, text: &[u8]) -> bool
        ensures text { IsTrue result → self.now.text.items ≡ text.now }
        ensures some { IsTrue result → IsSome self.now.outcome }
    {
        self.outcome.is_some() && self.text.as_slice() == text
    }

    // Compiles the keywords of a hex text in place of the last ones. After an error there are none.
    fn compile(
        &mut self,
        alloc: Global,
        draft: Draft,
        text: &[u8],
        keywords: &[u8],
    ) -> Result<(), AllocError>
        requires { IsHexText text.now keywords.now }
        ensures kept { IsKept draft self.new }
        ensures text { OnOk result (self.new.text.items ≡ text.now) }
        ensures some { OnOk result (IsSome self.new.outcome) }
    {
        self.outcome = None;
        self.text.clear();
        self.text.extend_from_slice(text)?;
        match Checks::compile_slice(alloc, draft, keywords) {
            Ok(checks) => self.outcome = Some(Ok(checks)),
            Err(JudgeError::OutOfMemory) => return Err(AllocError),
            Err(error) => self.outcome = Some(Err(error)),
        }
        Ok(())
    }

    // The verdict of the last keywords on a document.
    fn judge(&self, alloc: Global, draft: Draft, document: &[u8]) -> Result<bool, JudgeError>
        requires kept { IsKept draft self.now }
        requires some { IsSome self.now.outcome }
        ensures { IsVerdictOn draft self.now.text.items document.now result }
    {
        match &self.outcome {
            Some(Ok(checks)) => checks.judge_slice(alloc, document),
            Some(Err(error)) => Err(*error),
            None => unreachable!(),
        }
    }
}

impl KeptPair {
    // What is kept before the first line. It takes no memory.
    pub(crate) fn none(alloc: Global) -> KeptPair
        ensures { (draft : Draft) → IsKept draft result.last }
    {
        KeptPair {
            last: LastKeywords::none(alloc),
            keywords: Vec::new(alloc),
            document: Vec::new(alloc),
        }
    }

    // The verdict on the keywords and the document of two hex texts; None where one of them is no hex text. Keywords are not
    // compiled where the last ones had this hex text. An error is want of memory.
    pub(crate) fn judge(
        &mut self,
        alloc: Global,
        draft: Draft,
        first: &[u8],
        second: &[u8],
    ) -> Result<Option<Result<bool, JudgeError>>, AllocError>
        requires { IsKept draft self.old.last }
        ensures kept { IsKept draft self.new.last }
        ensures verdict { IfOk result (λ o. MatchOption o
            ((k d : List ℕ) → IsHexText first.now k → IsHexText second.now d → ⊥)
            (IsVerdictOnTexts draft first.now second.now)) }
    {
        if !read_hex(second, &mut self.document)? {
            return Ok(None);
        }
        if !self.turn_to(alloc, draft, first)? {
            return Ok(None);
        }
        Ok(Some(self.last.judge(alloc, draft, &self.document)))
    }

    // Compiles the keywords of a hex text, if the last ones had another; whether it is a hex text.
    fn turn_to(&mut self, alloc: Global, draft: Draft, text: &[u8]) -> Result<bool, AllocError>
        requires { IsKept draft self.old.last }
        ensures kept { IsKept draft self.new.last }
        ensures document { self.new.document ≡ self.old.document }
        ensures text { IfOk result (λ is. IsTrue is → self.new.last.text.items ≡ text.now) }
        ensures some { IfOk result (λ is. IsTrue is → IsSome self.new.last.outcome) }
        ensures all { IfOk result (λ is. (k : List ℕ) → IsHexText text.now k → IsTrue is) }
    {
        if self.last.have(text) {
            return Ok(true);
        }
        if !read_hex(text, &mut self.keywords)? {
            return Ok(false);
        }
        self.last.compile(alloc, draft, text, &self.keywords)?;
        Ok(true)
    }
}
