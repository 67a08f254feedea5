//! The buffer of the answers.

ghost use Rattle.std.specs.Prelude.{◌≡◌, ◌+◌, ◌≤◌, ◌++◌, [], length, IfOk, OnErr, OnOk, is_ok};
ghost use Rattle.std.specs.Prelude.{if◌then◌else◌};
ghost use Rattle.command_engine.specs.Limits.{least_capacity};
ghost use Rattle.command_engine.specs.Words.{line_of_words, word_text, words_after_blanks};
ghost use Rattle.command_engine.specs.Words.{most_word, most_bytes};

use crate::limits::LEAST_CAPACITY;
use crate::words::Word;
use itoa::Buffer;
use std::alloc::{AllocError, Global};
use std::marker::Model;

/// The buffer of the answers of a run: the text of one answer, and the memory that was reserved for
/// it.
#[derive(Drop)]
pub struct Answer {
    bytes: Vec<u8>,
}

impl Model for Answer {
    ghost use Rattle.std.specs.Prelude.{◌≤◌};
    ghost use Rattle.std.specs.Vec.{vec_capacity};
    ghost use Rattle.command_engine.specs.Limits.{least_capacity};
    ghost use Rattle.command_engine.specs.Words.{AnswerText};

    ghost Value = { AnswerText };

    ghost view = { λ a. record { text = a.bytes.items; capacity = vec_capacity a.bytes } };

    ghost invariant = { λ a. least_capacity ≤ vec_capacity a.bytes };
}

impl Answer {
    /// An empty answer. `AllocError` comes only for want of memory, and then nothing was made.
    pub fn new(alloc: Global) -> Result<Answer, AllocError>
        ensures text { IfOk result (λ answer. answer.text ≡ []) }
        ensures spare_capacity { IfOk result (λ answer. least_capacity ≤ answer.capacity) }
    {
        Ok(Answer {
            bytes: Vec::with_capacity(alloc, LEAST_CAPACITY)?,
        })
    }

    /// The bytes of the answer.
    pub fn bytes(&self) -> &[u8]
        ensures value { result.now ≡ self.now.text }
        ensures spare_capacity { least_capacity ≤ self.now.capacity }
    {
        self.bytes.as_slice()
    }

    /// Every answer has its least capacity. This does nothing: a body calls it where its proof
    /// needs the law.
    pub fn has_capacity(&self)
        ensures { least_capacity ≤ self.now.capacity }
    {
        let _ = &self.bytes;
    }

    /// Empties the answer, and keeps its capacity.
    pub fn clear(&mut self)
        ensures text { self.new.text ≡ [] }
        ensures capacity { self.new.capacity ≡ self.old.capacity }
    {
        self.bytes.clear();
    }

    /// Reserves capacity for this many more bytes. `AllocError` comes only for want of memory, and
    /// then nothing changed.
    pub fn reserve(&mut self, more: usize) -> Result<(), AllocError>
        ensures text { self.new.text ≡ self.old.text }
        ensures spare_capacity { OnOk result (length self.old.text + more ≤ self.new.capacity) }
        ensures capacity { self.old.capacity ≤ self.new.capacity }
    {
        self.bytes.reserve(more)
    }

    /// Puts a line of these words, for which there is capacity, without memory.
    pub fn put_line(&mut self, words: &[Word])
        requires { length self.old.text + most_bytes words.now ≤ self.old.capacity }
        ensures text { self.new.text ≡ self.old.text ++ line_of_words words.now }
        ensures size { length self.new.text ≤ length self.old.text + most_bytes words.now }
        ensures capacity { self.old.capacity ≤ self.new.capacity }
    {
        if let Some((first, others)) = words.split_first() {
            self.put_word(*first);
            self.put_others(others);
        }
        self.put_bytes(b"\n");
    }

    /// Puts a line of these words, with more memory if there is no capacity for it. `AllocError`
    /// comes only for want of memory; a part of the line may then have been put.
    pub fn push_line(&mut self, words: &[Word]) -> Result<(), AllocError>
        ensures text { OnOk result (self.new.text ≡ self.old.text ++ line_of_words words.now) }
        ensures capacity { self.old.capacity ≤ self.new.capacity }
    {
        if let Some((first, others)) = words.split_first() {
            self.push_word(*first)?;
            self.push_others(others)?;
        }
        self.reserve(1)?;
        self.put_bytes(b"\n");
        Ok(())
    }

    /// Puts a text as it stands, of any number of lines, with more memory if there is no capacity
    /// for it. `AllocError` comes only for want of memory, and then nothing was put.
    pub fn push_text(&mut self, text: &[u8]) -> Result<(), AllocError>
        ensures text { OnOk result (self.new.text ≡ self.old.text ++ text.now) }
        ensures kept { OnErr result (self.new.text ≡ self.old.text) }
        ensures capacity { self.old.capacity ≤ self.new.capacity }
    {
        self.reserve(text.len())?;
        self.put_bytes(text);
        Ok(())
    }

    /// Puts a line of these words in place of what stood there, without memory: that of a refusal.
    pub fn refuse(&mut self, words: &[Word])
        requires { most_bytes words.now ≤ least_capacity }
        ensures text { self.new.text ≡ line_of_words words.now }
        ensures capacity { self.old.capacity ≤ self.new.capacity }
    {
        let _ = &self.bytes;
        self.clear();
        self.put_line(words);
    }

    /// Puts these words, for which and for a line end there is capacity, each after a blank.
    fn put_others(&mut self, words: &[Word])
        requires { length self.old.text + most_bytes words.now ≤ self.old.capacity }
        ensures text { self.new.text ≡ self.old.text ++ words_after_blanks words.now }
        ensures size { length self.new.text + 1 ≤ length self.old.text + most_bytes words.now }
        ensures capacity { self.old.capacity ≤ self.new.capacity }
    {
        for word in words {
            self.put_bytes(b" ");
            self.put_word(*word);
        }
    }

    /// Puts these words, each after a blank, with more memory if there is no capacity for it.
    fn push_others(&mut self, words: &[Word]) -> Result<(), AllocError>
        ensures text { OnOk result (self.new.text ≡ self.old.text ++ words_after_blanks words.now) }
        ensures capacity { self.old.capacity ≤ self.new.capacity }
    {
        for word in words {
            self.reserve(1)?;
            self.put_bytes(b" ");
            self.push_word(*word)?;
        }
        Ok(())
    }

    /// Puts a word, with more memory if there is no capacity for it.
    fn push_word(&mut self, word: Word) -> Result<(), AllocError>
        ensures text { OnOk result (self.new.text ≡ self.old.text ++ word_text word.entry) }
        ensures capacity { self.old.capacity ≤ self.new.capacity }
    {
        self.reserve(word.most_bytes())?;
        self.put_word(word);
        Ok(())
    }

    /// Puts a word, for which there is capacity.
    fn put_word(&mut self, word: Word)
        requires { length self.old.text + most_word word ≤ self.old.capacity }
        ensures text { self.new.text ≡ self.old.text ++ word_text word.entry }
        ensures size { length self.new.text ≤ length self.old.text + most_word word.entry }
        ensures capacity { self.old.capacity ≤ self.new.capacity }
    {
        match word {
            Word::Text(text) => self.put_bytes(text.as_bytes()),
            Word::Name(name) => self.put_bytes(name),
            Word::Number(number) => self.put_bytes(Buffer::new().format(number).as_bytes()),
        }
    }

    /// Puts bytes, for which there is capacity.
    fn put_bytes(&mut self, bytes: &[u8])
        requires { length self.old.text + length bytes.now ≤ self.old.capacity }
        ensures text { self.new.text ≡ self.old.text ++ bytes.now }
        ensures size { length self.new.text ≡ length self.old.text + length bytes.now }
        ensures capacity { self.old.capacity ≤ self.new.capacity }
    {
        self.bytes.extend_from_slice(bytes).unwrap();
    }
}
