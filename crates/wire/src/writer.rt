//! The answer writer: puts the lines of an answer into a text area.
ghost use Rattle.std.specs.Prelude.{◌≡◌, ◌+◌, ◌*◌, ◌≤◌, ◌∷◌, ◌++◌, length, drop};
ghost use Rattle.sheet.specs.Area.{HasRoom, Appends};
ghost use Rattle.sheet.specs.Frames.{frame_text};
ghost use Rattle.wire.specs.declared.reply.Reply.TheVariants.{Called, Reported, Refused};
ghost use Rattle.wire.specs.Replies.{reply_frame, move_frame, moves_told, moves_text, reply_text, two_bytes};

use crate::kind::{CommandKind, ReplyKind};
use crate::reply::Reply;
use board::{Answer, Call, Move, Report};
use sheet::FrameWriter;
use vocabulary::{Mill, Refusal};

/// The length of area that serves for any answer.
pub const AREA: usize = 16_384;

/// How many moved tickets an answer tells.
fn moves_told(reply: Reply) -> usize
    ensures { result ≡ moves_told reply }
{
    match reply {
        Reply::Called { answer, .. } => usize::from(answer.count()),
        _ => 0,
    }
}

/// What the frame of a moved ticket carries.
fn move_payload(moved: Move) -> [u8; 4]
    ensures { result ≡ (move_frame moved).payload }
{
    let [high, low] = moved.ticket.0.to_be_bytes();
    [high, low, moved.from.0, moved.to.0]
}

/// What the frame of an added ticket carries.
fn added_payload(mill: Mill, count: u16) -> [u8; 3]
    ensures { result ≡ mill.0 ∷ two_bytes count }
{
    let [high, low] = count.to_be_bytes();
    [mill.0, high, low]
}

/// What the frame of a report carries.
fn report_payload(report: Report) -> [u8; 7]
    ensures { result ≡ (reply_frame (Reported report)).payload }
{
    let [high, low] = report.highest_load.to_be_bytes();
    let [highest, higher, lower, lowest] = report.flow_time.to_be_bytes();
    [high, low, report.busy_mills, highest, higher, lower, lowest]
}

/// What the frame of a refusal carries.
fn refusal_payload(refusal: Refusal) -> [u8; 3]
    ensures { result ≡ (reply_frame (Refused refusal)).payload }
{
    let [high, low] = refusal.place().to_be_bytes();
    [refusal.number(), high, low]
}

/// Writes the line of a moved ticket, and nothing else.
fn put_move(frames: &mut FrameWriter<'_>, moved: Move)
    requires { HasRoom 15 frames.old }
    ensures { Appends (frame_text (move_frame moved)) frames.old frames.new }
{
    frames.frame(ReplyKind::Moved.into(), &move_payload(moved));
}

/// Writes the answer to a call, and nothing else.
fn put_called(frames: &mut FrameWriter<'_>, call: Call, answer: Answer)
    requires { HasRoom 21 frames.old }
    ensures { Appends (frame_text (reply_frame (Called call answer))) frames.old frames.new }
{
    let kind = ReplyKind::Answer(call.into()).into();
    match answer {
        Answer::Added { mill, count } => frames.frame(kind, &added_payload(mill, count)),
        Answer::Moved { count } => frames.frame(kind, &count.to_be_bytes()),
    }
}

/// Writes the first line of an answer, and nothing else.
fn put_head(frames: &mut FrameWriter<'_>, reply: Reply)
    requires { HasRoom 21 frames.old }
    ensures { Appends (frame_text (reply_frame reply)) frames.old frames.new }
{
    match reply {
        Reply::Called { call, answer } => put_called(frames, call, answer),
        Reply::Stands { mill } => {
            frames.frame(ReplyKind::Answer(CommandKind::Where).into(), &[mill.0])
        }
        Reply::Reported { report } => frames.frame(
            ReplyKind::Answer(CommandKind::Report).into(),
            &report_payload(report),
        ),
        Reply::Struck => frames.frame(ReplyKind::Answer(CommandKind::Strike).into(), &[]),
        Reply::Aliased => frames.frame(ReplyKind::Answer(CommandKind::Alias).into(), &[]),
        Reply::Refused { refusal } => frames.frame(
            ReplyKind::Refused.into(),
            &refusal_payload(refusal),
        ),
    }
}

/// Writes the lines of moved tickets, and nothing else.
fn put_moves(frames: &mut FrameWriter<'_>, moves: &[Move])
    requires { HasRoom (15 * length moves.now) frames.old }
    ensures { Appends (moves_text moves.now) frames.old frames.new }
{
    for moved in moves {
        put_move(frames, *moved);
    }
}

// A reply and its records are two: the records lie in the list of the caller.

/// Writes all lines of an answer, and nothing else.
fn put_lines(frames: &mut FrameWriter<'_>, reply: Reply, moves: &[Move])
    requires { HasRoom (21 + 15 * length moves.now) frames.old }
    ensures text { Appends (frame_text (reply_frame reply) ++ moves_text moves.now) frames.old frames.new }
    ensures short { length (frame_text (reply_frame reply) ++ moves_text moves.now) ≤ 21 + 15 * length moves.now }
{
    put_head(frames, reply);
    put_moves(frames, moves);
}

/// Writes all lines of an answer to the front of an area, and nothing else; tells their length.
fn put_text(area: &mut [u8], reply: Reply, moves: &[Move]) -> usize
    requires { 21 + 15 * length moves.now ≤ length area.old }
    ensures long { result ≡ length (frame_text (reply_frame reply) ++ moves_text moves.now) }
    ensures short { result ≤ 21 + 15 * length moves.now }
    ensures text { area.new ≡ (frame_text (reply_frame reply) ++ moves_text moves.now) ++ drop result area.old }
{
    let mut frames = FrameWriter::new(area, 0);
    put_lines(&mut frames, reply, moves);
    frames.written()
}

/// Writes an answer and the records of its moved tickets to the front of an area; tells the length of the text. The area behind it is left as it was.
pub fn put_reply(area: &mut [u8], reply: Reply, moves: &[Move]) -> usize
    requires room { 16384 ≤ length area.old }
    requires few { moves_told reply ≤ 1024 }
    requires records { moves_told reply ≤ length moves.now }
    ensures long { result ≡ length (reply_text reply moves.now) }
    ensures short { result ≤ 16384 }
    ensures text { area.new ≡ reply_text reply moves.now ++ drop result area.old }
{
    put_text(area, reply, &moves[0..moves_told(reply)])
}
