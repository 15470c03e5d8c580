// What no clause says: that workers answer, that they work at once, and that a crew ends where nobody receives,
// where no thread can be made and where memory is refused.
use crate::pieces;
use crate::pieces::is_read;
use aero_model::Verdict;
use aero_pieces::{Answer, Question, Value, same};
use aero_stage::Job;
use aero_worker::{Crew, CrewReport, Gate, NoGate, Reply, reply_with};
use std::alloc::{AllocError, Global};
use std::sync::atomic::{AtomicBool, AtomicU64, Ordering};
use std::sync::{Arc, Wait};
use std::test::*;
use std::thread;
use std::thread::Threads;

const TURNS: u32 = 20_000_000;

const REFUSED: &str = "memory was refused";

// How the waits of a row ended: all in time, or the first that came to no end within the turns.
const IN_TIME: &str = "in time";

const NOT_MET: &str = "no second worker entered the gate within 20,000,000 turns";

const NOT_POSTED: &str = "a job wasn't posted within 20,000,000 turns";

const NOT_ANSWERED: &str = "66 answers didn't come within 20,000,000 turns";

// A trace in which the block of T1 closes a cycle with its last event. `/` stands for a newline.
const CYCLE: &str = "T1|begin/T2|begin/T1|w(x)/T2|r(x)/T2|w(y)/T1|r(y)";

// The helpers below give `None` where memory is refused.

fn block_question(alloc: Global) -> Option<Arc<Question>> {
    pieces::block_question(alloc, 0, 0, "T1|r(x)")?
        .share(alloc)
        .ok()
}

fn trace_question(alloc: Global) -> Option<Arc<Question>> {
    pieces::trace_question(alloc, "", CYCLE, false)?
        .share(alloc)
        .ok()
}

fn job(number: u64, question: &Arc<Question>) -> Option<Job> {
    let question = Arc::try_clone(question).ok()?;
    Some(Job { number, question })
}

fn is_cycle(value: &Value) -> bool {
    match value {
        Value::Judged(
            Verdict::Violation {
                line,
                thread,
                begun,
            },
        ) => *line == 6 && *begun == 1 && thread.bytes() == b"T1".as_slice(),
        _ => false,
    }
}

// Which of the two questions the reply answers, as is right: 'b' the block, 't' the trace, and else '-'.
fn letter(reply: Option<Reply>, block: &Question, trace: &Question) -> char {
    match reply {
        Some(Reply::Done(answer)) => letter_of(&answer, block, trace),
        _ => '-',
    }
}

fn letter_of(answer: &Answer, block: &Question, trace: &Question) -> char {
    if same(answer.question(), block) && is_read(answer.value()) {
        return 'b';
    }
    if same(answer.question(), trace) && is_cycle(answer.value()) {
        return 't';
    }
    '-'
}

// How often the number stands in the list.
fn times(list: &[u64], number: u64) -> usize {
    let mut count = 0usize;
    for one in list {
        if *one == number {
            count = count.saturating_add(1);
        }
    }
    count
}

// How often the number stands in all of the lists.
fn times_in_all(report: &CrewReport, number: u64) -> usize {
    let mut count = times(&report.left, number);
    for list in report.by_worker.iter() {
        count = count.saturating_add(times(list, number));
    }
    count
}

// Each of the numbers from 0 on, so many, stands once, no other does, and each list rises.
fn are_accounted_for(report: &CrewReport, count: u64) -> bool {
    let mut all = report.left.len();
    let mut rise = report.left.is_sorted();
    for list in report.by_worker.iter() {
        all = all.saturating_add(list.len());
        rise &= list.is_sorted();
    }
    rise && all as u64 == count && stand_once(report, count)
}

fn stand_once(report: &CrewReport, count: u64) -> bool {
    for number in 0..count {
        if times_in_all(report, number) != 1 {
            return false;
        }
    }
    true
}

// Posts three jobs, of a block, a trace and the block, to two workers: how many are posted, which replies come, in
// the order of their letters, and where the jobs went.
fn three_jobs<R: Threads + Wait + Copy + Send + 'static>(
    rt: R,
    alloc: Global,
    gate: Arc<NoGate>,
    jobs: [Job; 3],
    (block, trace): (&Question, &Question),
) -> Option<(usize, [char; 3], CrewReport)> {
    let mut crew = Crew::start(rt, alloc, 2, gate).ok()?;
    let posted = post_three(&rt, &mut crew, jobs);
    let mut letters = ['?'; 3];
    for place in 0..3 {
        letters[place] = letter(crew.next_answer(&rt), block, trace);
    }
    letters.sort_unstable();
    Some((posted, letters, crew.close(&rt)))
}

fn post_three<R: Wait>(rt: &R, crew: &mut Crew, jobs: [Job; 3]) -> usize {
    let mut posted = 0usize;
    let [first, second, third] = jobs;
    posted += crew.post(rt, first).is_ok() as usize;
    posted += crew.post(rt, second).is_ok() as usize;
    posted += crew.post(rt, third).is_ok() as usize;
    posted
}

// The same, with what it needs.
fn ask_three<R: Threads + Wait + Copy + Send + 'static>(
    rt: R,
    alloc: Global,
) -> Option<(usize, [char; 3], CrewReport)> {
    let block = block_question(alloc)?;
    let trace = trace_question(alloc)?;
    let jobs = [job(0, &block)?, job(1, &trace)?, job(2, &block)?];
    let gate = Arc::new(alloc, NoGate).ok()?;
    three_jobs(rt, alloc, gate, jobs, (&block, &trace))
}

#[test]
fn each_job_is_taken_once_and_answered(rt: HostRuntime) -> Result<(), Fail> {
    let (posted, letters, report) = ask_three(rt, rt.alloc()).ok_or(REFUSED)?;
    assert_eq!(rt; posted, 3);
    assert_eq!(rt; letters, ['b', 'b', 't']);
    assert!(rt; report.left.is_empty());
    assert_eq!(rt; report.by_worker.len(), 2);
    assert!(rt; are_accounted_for(&report, 3));
    Ok(())
}

// Whether three jobs are posted, and the lists have each of them.
fn are_three_accounted_for<R: Threads + Wait + Copy + Send + 'static>(
    rt: R,
    alloc: Global,
) -> Option<bool> {
    let (posted, _, report) = ask_three(rt, alloc)?;
    Some(posted == 3 && are_accounted_for(&report, 3))
}

// Holds whichever one allocation is refused, as `rt try --test --fail-alloc N` refuses the N-th. Where it is made
// before a crew has the jobs, the three are asked again, and all memory is there. A worker to which it is refused gives
// up, or misses a job, and the lists have each job that was posted all the same.
#[test]
fn each_job_is_accounted_for_where_memory_is_refused(rt: HostRuntime) {
    let told = match are_three_accounted_for(rt, rt.alloc()) {
        None => are_three_accounted_for(rt, rt.alloc()),
        told => told,
    };
    assert_eq!(rt; told, Some(true));
}

// A gate in which each of the first two waits until the other has entered, before a job or after its answer.
#[derive(Drop)]
struct Meet {
    is_after: bool,
    entered: AtomicU64,
    late: AtomicBool,
}

fn nobody_yet(is_after: bool) -> Meet {
    Meet {
        is_after,
        entered: AtomicU64::new(0),
        late: AtomicBool::new(false),
    }
}

impl Meet {
    // Whether each that entered met the other in time.
    fn waited(&self) -> &'static str {
        if self.late.load(Ordering::SeqCst) {
            NOT_MET
        } else {
            IN_TIME
        }
    }

    fn enter(&self) {
        self.entered.fetch_add(1, Ordering::SeqCst);
        if !is_raised(&self.entered, 2) {
            self.late.store(true, Ordering::SeqCst);
        }
    }
}

impl Gate for Meet {
    fn before(&self, _question: &Question) {
        if !self.is_after {
            self.enter();
        }
    }

    fn after(&self, _answer: &Answer) {
        if self.is_after {
            self.enter();
        }
    }
}

// Whether the count comes to so many within some turns.
fn is_raised(count: &AtomicU64, most: u64) -> bool {
    for _ in 0..TURNS {
        if count.load(Ordering::SeqCst) >= most {
            return true;
        }
        thread::yield_now();
    }
    false
}

// Whether both jobs are posted to two workers, whether both are done, and how many workers there were.
fn two_work<R: Threads + Wait + Copy + Send + 'static>(
    rt: R,
    gate: Arc<Meet>,
    alloc: Global,
    (one, other): (Job, Job),
    block: &Question,
) -> Option<(bool, bool, usize)> {
    let mut crew = Crew::start(rt, alloc, 2, gate).ok()?;
    let are_posted = crew.post(&rt, one).is_ok() & crew.post(&rt, other).is_ok();
    let are_done = is_done(crew.next_answer(&rt), block) & is_done(crew.next_answer(&rt), block);
    Some((are_posted, are_done, crew.close(&rt).by_worker.len()))
}

// Whether the reply answers the question on the block, as is right.
fn is_done(reply: Option<Reply>, block: &Question) -> bool {
    letter(reply, block, block) == 'b'
}

// Whether two workers are at once in the gate, before or after, and nobody has it afterwards, and how their waits ended.
fn do_two_meet<R: Threads + Wait + Copy + Send + 'static>(
    rt: R,
    alloc: Global,
    is_after: bool,
) -> Option<(bool, &'static str)> {
    let block = block_question(alloc)?;
    let jobs = (job(0, &block)?, job(1, &block)?);
    let gate = Arc::new(alloc, nobody_yet(is_after)).ok()?;
    let shared = Arc::try_clone(&gate).ok()?;
    let told = two_work(rt, shared, alloc, jobs, &block)?;
    let entered = gate.entered.load(Ordering::SeqCst);
    let have_met = told == (true, true, 2) && entered == 2 && Arc::strong_count(&gate) == 1;
    Some((have_met, gate.waited()))
}

#[test]
fn two_workers_are_in_the_gate_at_once(rt: HostRuntime) {
    assert_eq!(rt; do_two_meet(rt, rt.alloc(), false), Some((true, IN_TIME)));
    assert_eq!(rt; do_two_meet(rt, rt.alloc(), true), Some((true, IN_TIME)));
}

// A gate that notes how many handles of a question there are at each of its calls.
#[derive(Drop)]
struct Handles {
    kept: Arc<Question>,
    before: AtomicU64,
    after: AtomicU64,
}

impl Gate for Handles {
    fn before(&self, _question: &Question) {
        let count = Arc::strong_count(&self.kept) as u64;
        self.before.store(count, Ordering::SeqCst);
    }

    fn after(&self, _answer: &Answer) {
        let count = Arc::strong_count(&self.kept) as u64;
        self.after.store(count, Ordering::SeqCst);
    }
}

// Whether the job of this question is answered by one worker.
fn is_answered_by_one<R: Threads + Wait + Copy + Send + 'static>(
    rt: R,
    alloc: Global,
    gate: Arc<Handles>,
    only: Job,
    block: &Question,
) -> Option<bool> {
    let mut crew = Crew::start(rt, alloc, 1, gate).ok()?;
    let is_answered = crew.post(&rt, only).is_ok() & is_done(crew.next_answer(&rt), block);
    crew.close(&rt);
    Some(is_answered)
}

// Whether a question is answered, and how many handles of it there are in the gate, before its answer and after.
fn handles_in_the_gate<R: Threads + Wait + Copy + Send + 'static>(
    rt: R,
    alloc: Global,
) -> Option<(bool, u64, u64)> {
    let kept = block_question(alloc)?;
    let only = job(0, &kept)?;
    let handles = Handles {
        kept,
        before: AtomicU64::new(0),
        after: AtomicU64::new(0),
    };
    let gate = Arc::new(alloc, handles).ok()?;
    let shared = Arc::try_clone(&gate).ok()?;
    let is_answered = is_answered_by_one(rt, alloc, shared, only, &gate.kept)?;
    let before = gate.before.load(Ordering::SeqCst);
    Some((is_answered, before, gate.after.load(Ordering::SeqCst)))
}

// The gate has a handle, and the job. An answer has one of its own, so there is none yet where the gate is entered first.
#[test]
fn the_gate_is_entered_before_the_answer_and_after(rt: HostRuntime) {
    assert_eq!(rt; handles_in_the_gate(rt, rt.alloc()), Some((true, 2, 3)));
}

// Counts its calls.
#[derive(Drop)]
struct Tally {
    before: AtomicU64,
    after: AtomicU64,
}

fn no_calls() -> Tally {
    Tally {
        before: AtomicU64::new(0),
        after: AtomicU64::new(0),
    }
}

impl Gate for Tally {
    fn before(&self, _question: &Question) {
        self.before.fetch_add(1, Ordering::SeqCst);
    }

    fn after(&self, _answer: &Answer) {
        self.after.fetch_add(1, Ordering::SeqCst);
    }
}

// Whether the job is posted within some turns.
fn is_posted<R: Wait>(rt: &R, crew: &mut Crew, job: Job) -> bool {
    let mut job = job;
    for _ in 0..TURNS {
        match crew.post(rt, job) {
            Ok(()) => return true,
            Err(full) => job = full.job,
        }
        thread::yield_now();
    }
    false
}

// Posts jobs with the numbers from the first to before the last, until one isn't posted, and says how many were, and why no
// more.
fn post_from<R: Wait>(
    rt: &R,
    crew: &mut Crew,
    question: &Arc<Question>,
    first: u64,
    last: u64,
) -> (u32, &'static str) {
    let mut count = 0u32;
    for number in first..last {
        let Some(job) = job(number, question) else {
            return (count, REFUSED);
        };
        if !is_posted(rt, crew, job) {
            return (count, NOT_POSTED);
        }
        count = count.saturating_add(1);
    }
    (count, IN_TIME)
}

fn are_from(list: &[u64], first: u64) -> bool {
    for i in 0..list.len() {
        if list[i] != first.saturating_add(i as u64) {
            return false;
        }
    }
    true
}

// How many of the first 66 of jobs were posted, and how that wait ended, how the wait for 66 answers ended, how many of the
// next 64 were posted, and how that wait ended, and which number was given back of the job that came then.
type Posted = (
    (u32, &'static str),
    &'static str,
    (u32, &'static str),
    Option<u64>,
);

const POSTED: Posted = ((66, IN_TIME), IN_TIME, (64, IN_TIME), Some(130));

// One worker and the jobs 0 to 129, and where all went.
fn post_where_nobody_receives<R: Threads + Wait + Copy + Send + 'static>(
    rt: R,
    alloc: Global,
    (gate, shared): (&Tally, Arc<Tally>),
    block: &Arc<Question>,
    more: Job,
) -> Option<(Posted, CrewReport)> {
    let mut crew = Crew::start(rt, alloc, 1, shared).ok()?;
    let first = post_from(&rt, &mut crew, block, 0, 66);
    let waited = if is_raised(&gate.after, 66) {
        IN_TIME
    } else {
        NOT_ANSWERED
    };
    let second = post_from(&rt, &mut crew, block, 66, 130);
    let given_back = crew.post(&rt, more).err().map(|full| full.job.number);
    Some(((first, waited, second, given_back), crew.close(&rt)))
}

// The same, with what it needs.
fn let_nobody_receive<R: Threads + Wait + Copy + Send + 'static>(
    rt: R,
    alloc: Global,
) -> Option<(Posted, CrewReport)> {
    let block = block_question(alloc)?;
    let gate = Arc::new(alloc, no_calls()).ok()?;
    let shared = Arc::try_clone(&gate).ok()?;
    let more = job(130, &block)?;
    post_where_nobody_receives(rt, alloc, (&gate, shared), &block, more)
}

// Nobody receives. The one worker gives 65 replies and waits with its next, and 64 jobs fill the queue. What comes
// then is given back, the 64 are left, and the worker ends.
#[test]
fn a_crew_is_closed_though_nobody_receives(rt: HostRuntime) -> Result<(), Fail> {
    let (told, report) = let_nobody_receive(rt, rt.alloc()).ok_or(REFUSED)?;
    assert_eq!(rt; told, POSTED);
    assert_eq!(rt; report.by_worker.len(), 1);
    assert!(rt; is_first_list(&report, 66));
    assert!(rt; report.left.len() == 64 && are_from(&report.left, 66));
    Ok(())
}

// The first worker took so many jobs, from 0 on.
fn is_first_list(report: &CrewReport, count: usize) -> bool {
    match report.by_worker.first() {
        Some(list) => list.len() == count && are_from(list, 0),
        None => false,
    }
}

// What a crew of no worker makes of one job: how many workers it has, whether the job is posted, whether a
// reply comes, and where the job went.
fn ask_nobody<R: Threads + Wait + Copy + Send + 'static>(
    rt: R,
    alloc: Global,
    gate: Arc<Tally>,
    only: Job,
) -> Option<((u32, bool, bool), CrewReport)> {
    // No stack has so many bytes.
    let mut crew = Crew::start_with(rt, alloc, 16, gate, usize::MAX).ok()?;
    let workers = crew.workers();
    let is_posted = crew.post(&rt, only).is_ok();
    let is_answered = crew.next_answer(&rt).is_some();
    Some(((workers, is_posted, is_answered), crew.close(&rt)))
}

fn is_missed_with(reply: &Reply, number: u64) -> bool {
    match reply {
        Reply::Missed(missed) => *missed == number,
        Reply::Done(_) => false,
    }
}

// Whether a refused answer is missed, and the gate isn't entered.
fn is_refusal_missed() -> bool {
    let gate = no_calls();
    let is_missed = is_missed_with(&reply_with(&gate, 7, Err(AllocError)), 7);
    is_missed && gate.after.load(Ordering::SeqCst) == 0
}

// Whether an answer is done, and the gate was entered once.
fn is_answer_done(alloc: Global) -> Option<bool> {
    let block = block_question(alloc)?;
    let answer = Question::answer(&block, alloc).ok()?;
    let gate = no_calls();
    let is_done = is_done(Some(reply_with(&gate, 7, Ok(answer))), &block);
    Some(is_done && gate.after.load(Ordering::SeqCst) == 1)
}

// What a crew makes of one job where no thread can be made, and how often the gate was entered.
fn post_to_nobody<R: Threads + Wait + Copy + Send + 'static>(
    rt: R,
    alloc: Global,
) -> Option<((u32, bool, bool), u64, CrewReport)> {
    let block = block_question(alloc)?;
    let only = job(7, &block)?;
    let gate = Arc::new(alloc, no_calls()).ok()?;
    let shared = Arc::try_clone(&gate).ok()?;
    let (told, report) = ask_nobody(rt, alloc, shared, only)?;
    Some((told, gate.before.load(Ordering::SeqCst), report))
}

#[test]
fn what_has_no_worker_or_no_memory(rt: HostRuntime) -> Result<(), Fail> {
    let (told, entered, report) = post_to_nobody(rt, rt.alloc()).ok_or(REFUSED)?;
    assert_eq!(rt; told, (0, true, false));
    assert_eq!(rt; entered, 0);
    assert!(rt; report.by_worker.is_empty());
    assert_eq!(rt; report.left.as_slice(), [7].as_slice());
    assert!(rt; is_refusal_missed());
    assert_eq!(rt; is_answer_done(rt.alloc()), Some(true));
    Ok(())
}

// Lets a question go to a crew of one worker: how many handles of it there are as long as the worker has no job,
// whether a job is answered that is posted then, and how many handles there are after that.
fn let_one_go<R: Threads + Wait + Copy + Send + 'static>(
    rt: R,
    alloc: Global,
    gate: Arc<NoGate>,
    only: Job,
    (kept, other): (&Arc<Question>, Arc<Question>),
) -> Option<(usize, bool, usize)> {
    let mut crew = Crew::start(rt, alloc, 1, gate).ok()?;
    crew.let_go(&rt, other);
    let before = Arc::strong_count(kept);
    let is_answered = crew.post(&rt, only).is_ok() & is_done(crew.next_answer(&rt), kept);
    let after = Arc::strong_count(kept);
    crew.close(&rt);
    Some((before, is_answered, after))
}

// The same, with what it needs.
fn let_a_question_go<R: Threads + Wait + Copy + Send + 'static>(
    rt: R,
    alloc: Global,
) -> Option<(usize, bool, usize)> {
    let kept = block_question(alloc)?;
    let other = Arc::try_clone(&kept).ok()?;
    let only = job(0, &block_question(alloc)?)?;
    let gate = Arc::new(alloc, NoGate).ok()?;
    let_one_go(rt, alloc, gate, only, (&kept, other))
}

// The caller makes no call between the two counts that frees a question, so the worker does: before it answers.
#[test]
fn what_is_let_go_is_freed_by_a_worker(rt: HostRuntime) {
    assert_eq!(rt; let_a_question_go(rt, rt.alloc()), Some((2, true, 1)));
}
