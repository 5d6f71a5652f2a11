//! The cursor. Its private functions take it from one point to the next: a part ends, and the
//! innermost frame says what comes next.
ghost use Rattle.std.specs.Prelude.{◌≡◌, ◌<◌, ◌≤◌, ◌+◌, ◌-◌, ◌^◌, nat_lt, if◌then◌else◌, false, [], ◌∷◌, ◌++◌, drop, length, map, Some, None, IfNone, IfOk, IfSome};
ghost use Rattle.stm_model.specs.Accesses.{addr_of};
ghost use Rattle.ledger_model.specs.Run.{Failed, Kept};
ghost use Rattle.ledger_model.specs.Talk.{Over, Own, adding, block_part, level, over, spoken, talk, tells, value_in, with_register};
ghost use Rattle.script_cursor.specs.Cursors.{after, block_work, coming_of, end_of, frame_work, is_over, lates_from, lates_work, left, next_by, next_of, next_outside, talk_of, work_behind};
ghost use Rattle.script_cursor.specs.Steps.{Begins, Comes, GoesOn, Proceeds, left_by, talk_by};
ghost use Rattle.script_cursor.specs.declared.place.Frame.TheVariants.{Rest, Close, Catch, Try};
ghost use Rattle.script_cursor.specs.declared.place.Section.TheVariants.{Body};

use crate::own::Own;
use crate::place::{Frame, Point, Section};
use crate::{Coming, End};
use ledger_model::{Block, Operand, Parts, Script, Statement};
use std::alloc::Global;
use stm_model::{Addr, Ask, Cause, Memory};

/// A place in a script, at what the script asks next. It refers to the script's blocks and copies
/// none. Each attempt at a script makes a cursor of its own.
#[derive(Drop)]
pub struct Cursor<'a> {
    own: Own<'a>,
    section: Section,
    /// How many before-commit bodies have begun.
    begun: u64,
    /// What is to come behind the point, the innermost last.
    frames: Vec<Frame<'a>>,
    point: Point,
}

impl<'a> Cursor<'a> {
    /// At the start of a script.
    pub fn new(alloc: Global, script: &'a Script) -> Result<Cursor<'a>, Memory>
        ensures { IfOk result (λ cursor. talk_of cursor ≡ talk script.now.block) }
    {
        let mut cursor = Cursor {
            own: Own::new(alloc),
            section: Section::Block,
            begun: 0,
            frames: Vec::new(alloc),
            point: Point::Over { end: End::Kept },
        };
        cursor.push(Frame::Rest {
            block: script.block.as_slice(),
            index: 0,
        })?;
        cursor.settle(End::Kept)?;
        Ok(cursor)
    }

    /// What comes next.
    pub fn next(&self) -> Coming
        ensures { result ≡ coming_of (talk_of self.now) }
    {
        match self.point {
            Point::Says { number } => Coming::Says(number),
            Point::Reads { cell, reg: _ } => Coming::Asks(Ask::Get(Addr(cell))),
            Point::Tells { ask, end: _ } => Coming::Asks(ask),
            Point::Takes { from, .. } => Coming::Asks(Ask::Get(Addr(from))),
            Point::Leaves { from, rest, .. } => Coming::Asks(Ask::Set(Addr(from), rest)),
            Point::Adds { into, number: _ } => Coming::Asks(Ask::Get(Addr(into))),
            Point::Ends => Coming::Ends,
            Point::GivesUp { end } => given_up(end),
            Point::Over { end } => Coming::Over(end),
        }
    }

    /// Goes on behind what comes next, by the answer to it: what was read, and any number where
    /// nothing was. After an error nothing is known of the cursor, and it is to be given up.
    pub fn answer(&mut self, value: u64) -> Result<(), Memory>
        ensures talk { IfOk result (λ _. talk_of self.new ≡ after (talk_of self.old) value) }
        ensures left { IfOk result (λ _.
            is_over (talk_of self.old) ≡ false → left self.new < left self.old) }
    {
        match self.pass(value) {
            Some(end) => self.settle(end),
            None => Ok(()),
        }
    }

    // ---- steps

    /// Passes the point. Where a part ends there, that is how it ends.
    fn pass(&mut self, value: u64) -> Option<End>
        ensures talk { talk_by result self.new ≡ after (talk_of self.old) value }
        ensures left { is_over (talk_of self.old) ≡ false → left_by result self.new < left self.old }
    {
        match self.point {
            Point::Says { number: _ } => Some(End::Kept),
            Point::Reads { cell: _, reg } => self.set(reg, value),
            Point::Tells { ask: _, end } => Some(end),
            Point::Takes { from, into, number } => self.leave(from, value, into, number),
            Point::Leaves { into, number, .. } => self.stand(Point::Adds { into, number }),
            Point::Adds { into, number } => self.arrive(into, value, number),
            Point::Ends => Some(End::Kept),
            Point::GivesUp { end } => self.stand(Point::Over { end }),
            Point::Over { end: _ } => None,
        }
    }

    /// Goes on from the end of a part to what comes next.
    fn settle(&mut self, end: End) -> Result<(), Memory>
        ensures talk { IfOk result (λ _. talk_of self.new ≡ talk_by (Some end) self.old) }
        ensures left { IfOk result (λ _. left self.new ≤ left_by (Some end) self.old) }
    {
        let mut went = Some(end);
        while let Some(end) = went {
            went = self.proceed(end)?;
        }
        Ok(())
    }

    /// Goes on from the end of a part by the innermost frame.
    fn proceed(&mut self, end: End) -> Result<Option<End>, Memory>
        ensures { IfOk result (λ went. Proceeds end self.old went self.new) }
    {
        match self.frames.pop() {
            None => self.end_section(end),
            Some(Frame::Rest { block, index }) => self.go_on(block, index, end),
            Some(Frame::Close { registers, count }) => Ok(self.close(registers, count, end)),
            Some(Frame::Catch { reg }) => Ok(self.catch(reg, end)),
            Some(Frame::Try { parts, index }) => self.try_next(parts, index, end),
        }
    }

    // ---- frames

    /// Puts a frame inside the others.
    fn push(&mut self, frame: Frame<'a>) -> Result<(), Memory>
        ensures next { IfOk result (λ _. next_of self.new ≡ next_by frame.entry (next_of self.old)) }
        ensures work { IfOk result (λ _.
            work_behind self.new ≡ frame_work frame.entry + work_behind self.old) }
        ensures own { self.new.own ≡ self.old.own }
    {
        self.frames.push(frame)?;
        Ok(())
    }

    /// Goes on with the statements from this one on.
    fn go_on(
        &mut self,
        block: &'a [Statement],
        index: usize,
        end: End,
    ) -> Result<Option<End>, Memory>
        ensures { IfOk result (λ went. GoesOn (Rest block.entry index) end self.old went self.new) }
    {
        match end {
            End::Kept => match block.get(index) {
                None => Ok(Some(End::Kept)),
                Some(statement) => {
                    let index = index + 1;
                    self.push(Frame::Rest { block, index })?;
                    self.begin(statement)
                }
            },
            _ => Ok(Some(end)),
        }
    }

    /// Ends a level.
    fn close(&mut self, registers: [u64; 16], count: usize, end: End) -> Option<End>
        ensures { GoesOn (Close registers count) end self.old result self.new }
    {
        match end {
            End::Kept => self.stand(Point::Tells {
                ask: Ask::Keep,
                end,
            }),
            _ => {
                self.own.go_back(registers, count);
                self.stand(Point::Tells {
                    ask: Ask::Undo,
                    end,
                })
            }
        }
    }

    /// Ends an `inner`.
    fn catch(&mut self, reg: u8, end: End) -> Option<End>
        ensures { GoesOn (Catch reg) end self.old result self.new }
    {
        match end {
            End::Kept => self.set(reg, 0),
            End::Failed { code } => self.set(reg, u64::from(code)),
            End::Retried => Some(End::Retried),
        }
    }

    /// Goes on with the parts from this one on.
    fn try_next(
        &mut self,
        parts: &'a [Block],
        index: usize,
        end: End,
    ) -> Result<Option<End>, Memory>
        ensures { IfOk result (λ went. GoesOn (Try parts.entry index) end self.old went self.new) }
    {
        match end {
            End::Retried => match parts.get(index) {
                None => Ok(Some(End::Retried)),
                Some(part) => {
                    let index = index + 1;
                    self.push(Frame::Try { parts, index })?;
                    self.enter(part.as_slice())
                }
            },
            _ => Ok(Some(end)),
        }
    }

    /// Ends the script's block or a before-commit body.
    fn end_section(&mut self, end: End) -> Result<Option<End>, Memory>
        requires { self.old.frames.items ≡ [] }
        ensures { IfOk result (λ went. Proceeds end self.old went self.new) }
    {
        match (end, self.section) {
            (End::Kept, Section::Block) => {
                self.section = Section::Between;
                Ok(self.stand(Point::Tells {
                    ask: Ask::Finish,
                    end,
                }))
            }
            (End::Kept, Section::Between) => self.begin_late(),
            (End::Kept, Section::Body) => {
                self.section = Section::Between;
                Ok(self.stand(Point::Ends))
            }
            _ => Ok(self.stand(Point::GivesUp { end })),
        }
    }

    /// Begins the next before-commit body.
    fn begin_late(&mut self) -> Result<Option<End>, Memory>
        requires { self.old.frames.items ≡ [] }
        ensures { IfOk result (λ went.
            Comes (lates_from self.old.begun self.old.own) (2 + work_behind self.old) went self.new) }
    {
        match self.next_late() {
            None => Ok(self.stand(Point::Over { end: End::Kept })),
            Some(body) => {
                self.begun += 1;
                self.section = Section::Body;
                self.push(Frame::Rest {
                    block: body.as_slice(),
                    index: 0,
                })?;
                Ok(Some(End::Kept))
            }
        }
    }

    /// The before-commit body that has its turn.
    fn next_late(&self) -> Option<&'a Block>
        ensures none { IfNone result (lates_from self.now.begun self.now.own ≡ Over Kept) }
        ensures some { IfSome result (λ body. lates_from self.now.begun self.now.own ≡
            block_part body.now self.now.own (next_outside Body (self.now.begun + 1))) }
        ensures work { IfSome result (λ body. lates_work (drop self.now.begun self.now.own.lates) ≡
            4 + block_work body.now + lates_work (drop (self.now.begun + 1) self.now.own.lates)) }
        ensures room { IfSome result (λ _. self.now.begun < 2 ^ 32) }
    {
        match u32::try_from(self.begun) {
            Ok(begun) => self.own.late(begun as usize),
            Err(_) => None,
        }
    }

    // ---- statements

    /// Begins a statement.
    fn begin(&mut self, statement: &'a Statement) -> Result<Option<End>, Memory>
        ensures { IfOk result (λ went. Begins statement.now self.old went self.new) }
    {
        match statement {
            Statement::Const { reg, number } => Ok(self.set(*reg, *number)),
            Statement::Read { reg, cell } => Ok(self.stand(Point::Reads {
                cell: *cell,
                reg: *reg,
            })),
            Statement::Write { cell, value } => Ok(self.write(*cell, *value)),
            Statement::Add { reg, value } => Ok(self.add(*reg, *value)),
            Statement::Sub { reg, value } => Ok(self.subtract(*reg, *value)),
            Statement::Print { value } => Ok(self.print(*value)),
            Statement::Check { left, right, code } => {
                Ok(Some(self.end_if_less(*left, *right, End::Failed { code: *code })))
            }
            Statement::Need { left, right } => {
                Ok(Some(self.end_if_less(*left, *right, End::Retried)))
            }
            Statement::Move { from, into, value } => Ok(self.begin_move(*from, *into, *value)),
            Statement::Inner { reg, block } => self.begin_inner(*reg, block),
            Statement::Either { parts } => self.begin_either(parts),
            Statement::Late { block } => self.register_late(block),
            Statement::Hook { phase, token } => Ok(self.tell(Ask::Hook(*phase, *token))),
            // those on maps ask nothing yet
            _ => Ok(Some(End::Kept)),
        }
    }

    fn write(&mut self, cell: u32, value: Operand) -> Option<End>
        ensures { Begins (Statement.Write cell value) self.old result self.new }
    {
        let value = self.own.value_in(value);
        self.tell(Ask::Set(Addr(cell), value))
    }

    fn add(&mut self, reg: u8, value: Operand) -> Option<End>
        ensures { Begins (Statement.Add reg value) self.old result self.new }
    {
        let sum = self
            .own
            .register(reg)
            .wrapping_add(self.own.value_in(value));
        self.set(reg, sum)
    }

    fn subtract(&mut self, reg: u8, value: Operand) -> Option<End>
        ensures { Begins (Statement.Sub reg value) self.old result self.new }
    {
        let rest = self
            .own
            .register(reg)
            .wrapping_sub(self.own.value_in(value));
        self.set(reg, rest)
    }

    fn print(&mut self, value: Operand) -> Option<End>
        ensures { Begins (Statement.Print value) self.old result self.new }
    {
        let number = self.own.value_in(value);
        self.stand(Point::Says { number })
    }

    /// This end where left is less than right.
    fn end_if_less(&self, left: Operand, right: Operand, end: End) -> End
        ensures { result ≡ (if nat_lt (value_in left self.now.own) (value_in right self.now.own)
            then end else End.Kept) }
    {
        if self.own.value_in(left) < self.own.value_in(right) {
            end
        } else {
            End::Kept
        }
    }

    fn begin_move(&mut self, from: u32, into: u32, value: Operand) -> Option<End>
        ensures { Begins (Statement.Move from into value) self.old result self.new }
    {
        let number = self.own.value_in(value);
        self.stand(Point::Takes { from, into, number })
    }

    fn begin_inner(&mut self, reg: u8, block: &'a Block) -> Result<Option<End>, Memory>
        ensures { IfOk result (λ went. Begins (Statement.Inner reg block.now) self.old went self.new) }
    {
        self.push(Frame::Catch { reg })?;
        self.enter(block.as_slice())
    }

    fn begin_either(&mut self, parts: &'a Parts) -> Result<Option<End>, Memory>
        ensures { IfOk result (λ went. Begins (Statement.Either parts.now) self.old went self.new) }
    {
        self.push(Frame::Try {
            parts: parts.as_slice(),
            index: 0,
        })?;
        Ok(Some(End::Retried))
    }

    fn register_late(&mut self, body: &'a Block) -> Result<Option<End>, Memory>
        ensures { IfOk result (λ went. Begins (Statement.Late body.now) self.old went self.new) }
    {
        let token = self.own.count() as u64;
        self.own.add_late(body)?;
        Ok(self.tell(Ask::Later(token)))
    }

    // ---- parts of statements

    /// Enters a level.
    fn enter(&mut self, block: &'a [Statement]) -> Result<Option<End>, Memory>
        ensures { IfOk result (λ went.
            Comes (level (map spoken block.now) self.old.own (next_of self.old))
            (7 + block_work block.now + work_behind self.old) went self.new) }
    {
        let registers = self.own.registers();
        let count = self.own.count();
        self.push(Frame::Close { registers, count })?;
        self.push(Frame::Rest { block, index: 0 })?;
        Ok(self.tell(Ask::Enter))
    }

    /// Goes on with a move, where the value of the reference that it takes from is known.
    fn leave(&mut self, from: u32, value: u64, into: u32, number: u64) -> Option<End>
        ensures talk { talk_by result self.new ≡ (if nat_lt value number
            then next_of self.old (Failed 1) self.old.own
            else tells (Ask.Set (addr_of from) (value - number))
            (adding into number self.old.own (next_of self.old))) }
        ensures left { left_by result self.new < 6 + work_behind self.old }
    {
        if value < number {
            return Some(End::Failed { code: 1 });
        }
        self.stand(Point::Leaves {
            from,
            rest: value - number,
            into,
            number,
        })
    }

    /// Ends a move, where the value of the reference that it adds to is known.
    fn arrive(&mut self, into: u32, value: u64, number: u64) -> Option<End>
        ensures talk { talk_by result self.new ≡ (if nat_lt (value + number) (2 ^ 64)
            then tells (Ask.Set (addr_of into) (value + number))
            (next_of self.old Kept self.old.own)
            else next_of self.old (Failed 2) self.old.own) }
        ensures left { left_by result self.new < 4 + work_behind self.old }
    {
        match value.checked_add(number) {
            Some(sum) => self.tell(Ask::Set(Addr(into), sum)),
            None => Some(End::Failed { code: 2 }),
        }
    }

    /// Stands at a request whose answer is of no use.
    fn tell(&mut self, ask: Ask) -> Option<End>
        ensures talk { talk_by result self.new ≡ tells ask (next_of self.old Kept self.old.own) }
        ensures left { left_by result self.new ≡ 3 + work_behind self.old }
    {
        self.stand(Point::Tells {
            ask,
            end: End::Kept,
        })
    }

    fn stand(&mut self, point: Point) -> Option<End>
        ensures result { result ≡ None }
        ensures point { self.new ≡ record self.old { point = point } }
    {
        self.point = point;
        None
    }

    fn set(&mut self, reg: u8, number: u64) -> Option<End>
        ensures result { result ≡ Some End.Kept }
        ensures own { self.new ≡ record self.old { own = with_register reg number self.old.own } }
    {
        self.own.set_register(reg, number);
        Some(End::Kept)
    }
}

/// What comes next of a script that ends so.
fn given_up(end: End) -> Coming
    ensures { (s : Own) → result ≡ coming_of (over (end_of end) s) }
{
    match end {
        End::Kept => Coming::Over(End::Kept),
        End::Failed { code } => Coming::Asks(Ask::Abandon(Cause::User { code })),
        End::Retried => Coming::Asks(Ask::Abandon(Cause::Retry)),
    }
}
