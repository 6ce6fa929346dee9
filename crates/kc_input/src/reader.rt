//! The reader of `.config` text, which takes chunks of any size.
ghost use Rattle.std.specs.Prelude.{◌≡◌, ◌≤◌, length, None};
ghost use Rattle.kc_language.specs.ConfigFile.{ArePlacesOf};
ghost use Rattle.kc_input.specs.Feeding.{IsWithinLine, ended, stream_start};
ghost use Rattle.kc_language.specs.Text.{longest_input_line};
ghost use Rattle.kc_input.specs.ReaderCalls.{AnswersFeed, AnswersEnd};

use crate::fault::InputFault;
use crate::line_buffer::{LineBuffer, end_stream, take_piece};
use crate::prefix::Prefix;
use crate::step::NamedStream;
use crate::user_input::UserInput;
use kc_tree::tree::Tree;
use std::alloc::Global;
use std::marker::Model;

/// Reads an input file of `.config` text line by line. When a line ends, a valid assignment goes to the user's input,
/// and a warning is appended to `told` as a whole line. The reader stores the tree, the prefix, the name of the input
/// file, the number of the unfinished line and its bytes, at most 65,535. It also stores the first fault. Then every
/// later call returns that fault and changes nothing.
#[derive(Drop)]
pub struct InputReader<'a> {
    stream: NamedStream<'a>,
    line_buffer: LineBuffer,
    refusal: Option<InputFault>,
}

impl<'a> Model for InputReader<'a> {
    ghost use Rattle.kc_input.specs.ReaderState.{ReaderState, reader_code};
    ghost use Rattle.kc_input.specs.ReaderView.{position_of};
    ghost use Rattle.kc_input.specs.Feeding.{IsWithinLine};

    ghost Value = { ReaderState };

    ghost coded = { reader_code };

    ghost view = { λ r. record { tree = r.stream.tree.now; prefix = r.stream.prefix.now; name = r.stream.name.now; position = position_of r.line_buffer; refusal = r.refusal } };

    ghost invariant = { λ r. IsWithinLine (position_of r.line_buffer) };
}

impl<'a> InputReader<'a> {
    /// Returns a reader at line 1 of the input file. Does not allocate.
    pub fn new(alloc: Global, tree: &'a Tree, prefix: &'a Prefix, name: &'a [u8]) -> InputReader<'a>
        ensures { result ≡ record { tree = tree.now; prefix = prefix.now; name = name.now; position = stream_start; refusal = None } }
    {
        InputReader {
            stream: NamedStream {
                alloc,
                tree,
                prefix,
                name,
            },
            line_buffer: LineBuffer {
                number: 1,
                pending: Vec::new(alloc),
            },
            refusal: None,
        }
    }

    /// The number of bytes fed since the last LF or `finish`.
    pub fn pending(&self) -> usize
        ensures count { result ≡ length self.now.position.pending }
        ensures few { result ≤ longest_input_line }
    {
        self.line_buffer.pending.len()
    }

    /// Takes the next chunk of the input file, and appends the warnings of the lines that end in it to `told`. After an
    /// error the user values are those after the lines before the failed one, and exactly the warnings of these lines
    /// were added. So a line whose warning cannot be allocated assigns nothing. Memory runs out only before a byte of
    /// the chunk: an empty chunk never fails, nor does one that was taken whole, unless the reader stores a fault.
    pub fn feed(
        &mut self,
        piece: &[u8],
        user: &mut UserInput<'a>,
        told: &mut Vec<u8>,
    ) -> Result<(), InputFault>
        requires { ArePlacesOf self.old.tree user.old.places }
        ensures { AnswersFeed piece.now result self.old self.new user.old user.new told.old.items told.new.items }
    {
        if let Some(fault) = self.refusal {
            return Err(fault);
        }
        match take_piece(&self.stream, &mut self.line_buffer, piece, user, told) {
            Ok(()) => Ok(()),
            Err(fault) => {
                self.refusal = Some(fault);
                Err(fault)
            }
        }
    }

    /// Finishes the last line, and appends its warning to `told`. A later `feed` starts the next line. Fails only if
    /// there is not enough memory, or if the reader stores a fault. After an error `told` and the user values are
    /// unchanged. The reader is unchanged except that it stores the fault and returns it from every later call. If no
    /// byte is pending it never fails, unless the reader stores a fault.
    pub fn finish(&mut self, user: &mut UserInput<'a>, told: &mut Vec<u8>) -> Result<(), InputFault>
        requires { ArePlacesOf self.old.tree user.old.places }
        ensures { AnswersEnd (record self.old { position = ended self.old.position }) result self.old self.new user.old user.new told.old.items told.new.items }
    {
        if let Some(fault) = self.refusal {
            return Err(fault);
        }
        match end_stream(&self.stream, &mut self.line_buffer, user, told) {
            Ok(()) => Ok(()),
            Err(_) => {
                self.refusal = Some(InputFault::Memory);
                Err(InputFault::Memory)
            }
        }
    }
}
