// A record as a question and the answer that it expects.
ghost use Rattle.std.specs.Prelude.{◌<◌};

use cases::{head_matches, is_formed, number, part, refusal_matches};
use message::RefusedAt;
use standard::{Numbers, Refusal};

// The numbers of a success.
const FINE: Numbers = Numbers {
    number: 0,
    a: 0,
    b: 0,
};

// The question's parts, the head, then the results: values, which a refusal does not have, and behind them the buffers that were lent.
// Its functions are laid into the operations: where these know how many parts there are, a walk to a part is no loop.
#[derive(Clone, Copy)]
pub(crate) struct Case<'a> {
    record: &'a [u8],
    question: usize,
    values: usize,
    ghost few: { (question < 8) × (values < 8) },
}

impl<'a> Case<'a> {
    // The record, where it has just so many parts of each.
    #[inline(always)]
    pub(crate) fn new(
        record: &'a [u8],
        question: usize,
        values: usize,
        buffers: usize,
    ) -> Option<Case<'a>>
        requires { (question < 8) × (values < 8) × (buffers < 8) }
    {
        let parts = question + 1 + values + buffers;
        is_formed(record, question, parts).then_some(Case {
            record,
            question,
            values,
        })
    }

    // The question's i-th part, from 0.
    #[inline(always)]
    pub(crate) fn part(self, i: usize) -> &'a [u8] {
        part(self.record, i)
    }

    // The number that this part says.
    #[inline(always)]
    pub(crate) fn number(self, i: usize) -> Option<usize> {
        number(self.part(i))
    }

    // The i-th expected value.
    #[inline(always)]
    pub(crate) fn value(self, i: usize) -> &'a [u8]
        requires { i < 8 }
    {
        part(self.record, self.question + 1 + i)
    }

    // The i-th expected buffer.
    #[inline(always)]
    pub(crate) fn buffer(self, i: usize) -> &'a [u8]
        requires { i < 8 }
    {
        part(self.record, self.question + 1 + self.values + i)
    }

    // The expected head.
    #[inline(always)]
    pub(crate) fn head(self) -> &'a [u8] {
        part(self.record, self.question)
    }

    // Whether the expected head is that of a success.
    #[inline(always)]
    pub(crate) fn is_fine(self) -> bool {
        head_matches(self.head(), FINE, 0, 0)
    }

    // Whether there are no expected values from the i-th on.
    #[inline(always)]
    fn has_no_values(self, i: usize) -> bool
        requires { i < 8 }
    {
        for k in i..self.values {
            if !self.value(k).is_empty() {
                return false;
            }
        }
        true
    }

    // Whether the expected head is that of this refusal, and there are no values from the i-th on.
    #[inline(always)]
    pub(crate) fn is_refusal<E: Into<Refusal>>(self, refusal: E, i: usize) -> bool
        requires { i < 8 }
    {
        refusal_matches(self.head(), refusal.into()) && self.has_no_values(i)
    }

    // The same of a message's refusal, which has the type and the start of its item; it has no values at all.
    #[inline(always)]
    fn is_refusal_at(self, e: RefusedAt) -> bool {
        head_matches(self.head(), e.refusal.numbers(), e.type_number, e.start)
            && self.has_no_values(0)
    }

    // Whether the answer is the expected one: a success whose values are these, or a refusal, which has none.
    #[inline(always)]
    pub(crate) fn has<T: Drop, E: Into<Refusal>, F: Fn(T) -> bool>(
        self,
        answer: Result<T, E>,
        are_values: F,
    ) -> bool
        requires { F.IsAlwaysCallable are_values }
    {
        match answer {
            Ok(values) => self.is_fine() && are_values(values),
            Err(e) => self.is_refusal(e, 0),
        }
    }

    // The same of a message's answer.
    #[inline(always)]
    pub(crate) fn has_at<T: Drop, F: Fn(T) -> bool>(
        self,
        answer: Result<T, RefusedAt>,
        are_values: F,
    ) -> bool
        requires { F.IsAlwaysCallable are_values }
    {
        match answer {
            Ok(values) => self.is_fine() && are_values(values),
            Err(e) => self.is_refusal_at(e),
        }
    }
}
