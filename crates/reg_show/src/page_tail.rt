//! The page after its data. Written by tools/page: edit page/.

/// The page after its data.
pub const PAGE_TAIL: &str = r##"</script>
<script>
"use strict";
(() => {
/* run */
function decodeFrame(told, sender) {
  const frame = { kind: told[0], sender, number: -1, time: 0, op: "", count: 0 };
  if (told[0] === "count") frame.count = told[1];
  else {
    frame.number = told[1];
    frame.time = told[2];
    if (told[0] === "cast") frame.op = told[3];
  }
  return frame;
}

function decodeState(told) {
  const column = i => told.peers.map(peer => peer ? peer[i] : 0);
  return {
    heard: column(0),
    expected: column(1),
    acknowledged: column(2),
    queued: Math.max(...column(3)), // the same for all others
    held: told.held.map(([time, process]) => ({ time, process })),
    copy: new Map(told.copy),
    delivered: told.delivered,
    running: told.running,
  };
}

function blankState(processes) {
  const zeros = Array(processes).fill(0);
  return { heard: zeros, expected: zeros, acknowledged: zeros, queued: 0, held: [], copy: new Map(), delivered: 0,
    running: null };
}

const opKey = (process, number) => process + "." + number;
const stampKey = stamp => stamp.time + "," + stamp.process;
const isUpdate = operation => operation.kind !== "read";
const writes = ({ kind, expected }, held) => kind !== "read" && (expected === null || expected === held);
const stampText = stamp => `(${stamp.time}, ${stamp.process})`;
const isBelow = (a, b) => a.time < b.time || a.time === b.time && a.process < b.process;

function frameText(frame) {
  if (frame.kind === "count") return `count ${frame.count}`;
  const stamp = stampText({ time: frame.time, process: frame.sender });
  return `data ${frame.number}: ` + (frame.kind === "ack" ? `acknowledgement ${stamp}` : `cast ${stamp} ${frame.op}`);
}

class Run {
  constructor(told, startedBy = told.front) {
    this.title = told.title;
    this.processes = told.processes;
    this.registers = told.registers;
    this.front = told.front;
    this.startedBy = startedBy;
    this.witness = told.witness;
    this.isRealTime = told.points !== null;
    this.blank = blankState(told.processes);
    this.operations = told.operations.map(decodeOperation);
    this.operationBy = new Map(this.operations.map(o => [o.key, o]));
    this.events = told.events.map((event, at) => decodeEvent(event, at, told.states[at]));
    this.eventsOf = Array.from({ length: told.processes }, () => []);
    for (const event of this.events) this.eventsOf[event.process].push(event.at);
    this.last = this.events.length - 1;
    this.order = [];
    this.puts = this.events.flatMap(event => event.puts);
    this.putBy = new Map(this.puts.map(p => [`${p.from},${p.to},${p.place}`, p]));
    this.operationOfCast = new Map();
    this.linkOperations(told);
    this.linkFrames(told);
  }

  linkOperations(told) {
    for (const operation of this.operations) {
      this.events[operation.call].call = operation;
      if (operation.answer) this.events[operation.answer.at].answered = operation;
      const put = this.events[operation.call].puts.find(p => p.frame.kind === "cast");
      if (put) operation.castTime = put.frame.time;
    }
    this.order = told.order.map(([time, process, number, at], place) => {
      const op = /** @type {Operation} */ (this.operationBy.get(opKey(process, number)));
      op.castTime = time;
      op.first = { time, process, number, at, place, op };
      return op.first;
    });
    const memory = new Map();
    for (const { op } of this.order) {
      op.wrote = writes(op, memory.get(op.register) || "0");
      if (op.wrote) memory.set(op.register, op.value);
    }
    for (const [process, number, place] of told.reads) this.operation(process, number).readPlace = place;
    this.points = (told.points || []).map(([process, number, at]) => {
      const op = this.operation(process, number);
      op.point = at;
      return { op, at };
    });
    this.operationOfCast = new Map(this.operations.filter(o => o.castTime !== null).map(o =>
      [o.castTime + "," + o.process, o]));
  }

  linkFrames(told) {
    for (const [from, to, place, , at] of told.arrows) {
      const put = /** @type {Put} */ (this.putBy.get(`${from},${to},${place}`));
      const before = this.lastEventOf(to, at - 1), peer = before < 0 ? null : told.states[before].peers[from];
      const accepted = put.frame.kind === "count" || (peer ? peer[1] : 0) === put.frame.number;
      this.events[at].frame = put.frame;
      this.events[at].take = { put, nth: put.takes.length, accepted };
      put.takes.push(at);
    }
    const used = [...new Set(this.operations.map(o => this.registers.indexOf(o.register)))].sort((a, b) => a - b);
    this.shownRegisters = used.length ? used : [0];
  }

  operation(process, number) {
    return /** @type {Operation} */ (this.operationBy.get(opKey(process, number)));
  }

  operationOf(stamp) {
    return this.operationOfCast.get(stampKey(stamp)) || null;
  }

  operationIn(frame) {
    return frame.kind === "cast" ? this.operationOf({ time: frame.time, process: frame.sender }) : null;
  }

  lastEventOf(process, at) {
    const events = this.eventsOf[process];
    let low = 0, high = events.length;
    while (low < high) {
      const middle = low + high >> 1;
      if (events[middle] <= at) low = middle + 1;
      else high = middle;
    }
    return low ? events[low - 1] : -1;
  }

  stateAt(process, at) {
    const event = this.lastEventOf(process, at);
    return event < 0 ? this.blank : this.events[event].state;
  }

  clockAt(process, at) {
    const event = this.lastEventOf(process, at);
    return event < 0 ? 0 : this.events[event].clock;
  }

  runningAt(process, at) {
    if (!this.stateAt(process, at).running) return null;
    return this.operations.find(o => o.process === process && o.call <= at && (!o.answer || o.answer.at > at)) || null;
  }

  blockersOf(state, process, stamp) {
    const others = [...state.heard.keys()].filter(r => r !== process);
    return others.filter(r => isBelow({ time: state.heard[r], process: r }, stamp));
  }

  untakenAt(at) {
    return this.puts.filter(p => p.at <= at && !p.takes.some(take => take <= at))
      .sort((a, b) => a.from - b.from || a.to - b.to || a.place - b.place);
  }

  idleAt(at) {
    return [...Array(this.processes).keys()].filter(p => !this.stateAt(p, at).running);
  }

  sharedWith(other) {
    const shape = run => [run.processes, run.startedBy, run.registers, run.shownRegisters].join(" ");
    if (shape(this) !== shape(other)) return -1;
    const differs = this.events.findIndex((event, at) => at > other.last || event.text !== other.events[at].text);
    return differs < 0 ? this.events.length : differs;
  }

  scheduleAt(at) {
    const head = [`processes ${this.processes}`, `registers ${this.registers.join(" ")}`, `front ${this.front}`];
    return [...head, ...this.events.slice(0, at + 1).map(event => event.text), ""].join("\n");
  }
}

function decodeOperation(told) {
  const [kind, register, ...values] = told.op.split(" ");
  return {
    process: told.process, number: told.number, text: told.op, kind, register, value: values[values.length - 1],
    expected: values.length > 1 ? values[0] : null, wrote: null, call: told.call,
    answer: told.answer,
    key: opKey(told.process, told.number), name: `p${told.process} #${told.number}`,
    castTime: null, first: null, readPlace: null, point: null,
  };
}

function decodeEvent(told, at, state) {
  const puts = told.sent.map(([to, place, frame]) =>
    ({ from: told.process, to, place, frame: decodeFrame(frame, told.process), at, takes: [] }));
  return {
    at, text: told.event, process: told.process, frame: null, clock: told.clock,
    delivered: told.delivered.map(([time, process]) => ({ time, process })),
    puts, note: told.note, call: null, answered: null, take: null,
    get state() { // decoded where it is looked at: 64 processes have 64 numbers thrice for each event
      const value = decodeState(state);
      Object.defineProperty(this, "state", { value });
      return value;
    },
  };
}

/* orders */
function rankAt(operation, at, delivered) {
  const isDone = operation.answer !== null && operation.answer.at <= at;
  if (operation.readPlace !== null) {
    return isDone ? [operation.readPlace, 0, operation.process, operation.number] : null;
  }
  if (operation.first && operation.first.at <= at) {
    return isUpdate(operation) || isDone ? [operation.first.place, 1, 0, 0] : null;
  }
  return operation.castTime !== null && isDone ? [delivered, 2, operation.castTime, operation.process] : null;
}

function byRank(a, b) {
  for (let i = 0; i < 4; i++) if (a.rank[i] !== b.rank[i]) return a.rank[i] - b.rank[i];
  return 0;
}

function witnessAt(run, at) {
  const delivered = run.order.filter(c => c.at <= at).length;
  const ranked = [];
  for (const op of run.operations) {
    const rank = op.call <= at ? rankAt(op, at, delivered) : null;
    if (rank) ranked.push({ op, rank });
  }
  return ranked.sort(byRank);
}

const turnedOf = new WeakMap(); // the last answer for each run, which several panels ask for

function turnedAt(run, at) {
  if (run.isRealTime || at < 0) return [];
  const known = turnedOf.get(run);
  if (known && known.at === at) return known.pairs;
  const list = witnessAt(run, at).map(ranked => ranked.op);
  const pairs = [];
  list.forEach((older, i) => {
    if (!older.answer || older.answer.at > at) return;
    for (const newer of list.slice(0, i)) if (older.answer.at < newer.call) pairs.push([newer, older]);
  });
  turnedOf.set(run, { at, pairs });
  return pairs;
}

function sourceOf(run, operation) {
  if (operation.kind === "write") return undefined;
  const end = operation.readPlace !== null ? operation.readPlace : operation.first ? operation.first.place : null;
  if (end === null) return undefined;
  for (let i = end - 1; i >= 0; i--) {
    const earlier = run.order[i].op;
    if (earlier.wrote && earlier.register === operation.register) return earlier;
  }
  return null;
}

/* sentences */
const who = process => ({ part: "who", process });
const code = text => ({ part: "code", text });
const strong = text => ({ part: "strong", text });
const castPart = (stamp, op = "") => ({ part: "cast", stamp, op });
const opPart = (op, text = op.text) => ({ part: "op", op, text });
const namePart = op => opPart(op, op.name);
const plural = (n, one, many = one + "s") => n === 1 ? one : many;

function listed(items, end = "and") {
  return items.flatMap((item, i) => i === 0 ? [item] : [i === items.length - 1 ? ` ${end} ` : ", ", item]);
}

function some(processes, most = 5) {
  if (processes.length <= most) return listed(processes.map(who));
  const first = processes.slice(0, most - 1).map(who).flatMap((part, i) => i ? [", ", part] : [part]);
  return [...first, ` and ${processes.length - most + 1} more`];
}

function plainText(part) {
  if (Array.isArray(part)) return part.map(plainText).join("");
  if (typeof part === "string") return part;
  if (part.part === "who") return "p" + part.process;
  if (part.part === "cast") return stampText(part.stamp) + (part.op ? " " + part.op : "");
  return part.text;
}

function heardText(process, time) {
  return time === 0 ? [who(process), " hasn't been heard yet"] :
    [who(process), " was last heard at ", code(stampText({ time, process }))];
}

function whyHeld(run, state, process, stamp) {
  const blockers = run.blockersOf(state, process, stamp);
  const mute = blockers.filter(r => state.heard[r] === 0);
  const heard = blockers.filter(r => state.heard[r] > 0);
  if (blockers.length > 3) {
    if (!heard.length) return [...some(blockers, 4), " haven't been heard yet"];
    return [...some(blockers, 4), " haven't been heard at ", code(stampText(stamp)), " or above (",
      ...heardText(heard[0], state.heard[heard[0]]), ")"];
  }
  if (blockers.length > 1 && mute.length === blockers.length) return [...some(blockers), " haven't been heard yet"];
  return listed(blockers.map(r => heardText(r, state.heard[r])));
}

function whyStarted(run, operation, start) {
  const { startedBy: front } = run;
  if (start === "look") {
    return [`Under ${front} a read is not cast. No own cast of `, who(operation.process),
      " is on its way, so its copy answers at once."];
  }
  if (start === "held") {
    return [`Under ${front} a read is not cast, but it waits until the own casts before it are delivered.`];
  }
  if (front === "linear") {
    return ["The front end linear casts every operation, and answers it when its own process delivers it."];
  }
  if (front !== "local-read" && operation.kind === "write" && operation.answer?.at === operation.call) {
    return [`Under ${front} a write is answered at once; its cast is still to be delivered.`];
  }
  if (operation.kind === "swap") {
    return ["A swap's answer is the value before it, which is known at its delivery alone: it is cast, and waits."];
  }
  if (operation.kind === "cas") {
    return ["Whether its register holds the expected value is known at its delivery alone: it is cast, and waits."];
  }
  return [`Under ${front} a ${operation.kind} is cast, and answered when its own process delivers it.`];
}

const START = {
  lead: ["Nothing has happened: every clock is 0, every register holds 0, no frame is on a wire."],
  lines: [{ word: "step", tone: "next",
    body: ["Step with \u2192 or the slider. The grey part of the diagram is still to come."] }],
};

function storyOf(run, at) {
  if (at < 0) return START;
  const event = run.events[at];
  const old = run.stateAt(event.process, at - 1);
  const story = event.call ? storyOfCall(run, event, event.call) : event.take ? storyOfTake(run, event, old) :
    storyOfTick(run, event);
  story.lines.push(...deliveryLines(run, event, old), ...heldLines(run, event), ...answerLines(run, event),
    ...turnedLines(run, at),
    ...putLines(run, event));
  return story;
}

function storyOfCall(run, event, operation) {
  const me = event.process;
  const call = [who(me), " calls ", opPart(operation)];
  const clock = run.clockAt(me, event.at - 1);
  if (operation.castTime !== null) {
    const others = [...Array(run.processes).keys()].filter(r => r !== me);
    const goes = !others.length ? [". There is nobody else to hear of it."] :
      [". It goes to ", ...(run.processes > 6 ? [`all ${others.length} others`] : some(others)),
        ", and into the own queue."];
    return {
      lead: [...call, ", its operation #" + operation.number + "."],
      lines: [
        { word: "why", tone: "", body: whyStarted(run, operation, "cast") },
        { word: "clock", tone: "", body: [`${clock} \u2192 ${event.clock}, so the cast has the stamp `,
          castPart({ time: operation.castTime, process: me }), ...goes] },
      ],
    };
  }
  if (!event.state.running) {
    return {
      lead: [...call, ", its operation #" + operation.number + "."],
      lines: [{ word: "why", tone: "", body: whyStarted(run, operation, "look") }],
    };
  }
  const own = event.state.held.filter(stamp => stamp.process === me);
  return {
    lead: [...call, ", which has to wait."],
    lines: [{ word: "waits", tone: "block", body: [...whyStarted(run, operation, "held"), " On ",
      plural(own.length, "its", "their"),
      " way: ", ...listed(own.map(stamp => castPart(stamp))), "."] }],
  };
}

function storyOfTake(run, event, old) {
  const { frame, process: me } = event, from = frame.sender;
  if (frame.kind === "count") return storyOfCount(event, old);
  if (!event.take.accepted) return storyOfDrop(event, old);
  const isCast = frame.kind === "cast";
  const clock = run.clockAt(me, event.at - 1);
  const stamp = { time: frame.time, process: from };
  return {
    lead: isCast ? [who(me), " accepts ", who(from), "'s cast ", castPart(stamp, frame.op), "."] :
      [who(me), " accepts ", who(from), "'s acknowledgement ", code(stampText(stamp)), "."],
    lines: [
      { word: "heard", tone: "", body: [who(from), ` at time ${frame.time}` +
        (old.heard[from] ? `, before that at ${old.heard[from]}` : " for the first time") +
        (isCast ? ". The cast is put into the queue, and acknowledged to all others." :
          ". Whatever it casts from now on has a later time.")] },
      { word: "clock", tone: "",
        body: [`${clock} \u2192 max(${clock}, ${frame.time}) + 1 = ${event.clock}: past the time that came in.`] },
    ],
  };
}

function storyOfCount(event, old) {
  const { frame, process: me, state } = event, from = frame.sender;
  const was = old.acknowledged[from], end = Math.min(frame.count, state.queued);
  const body = state.acknowledged[from] > was ?
    [who(from), ` has accepted ${frame.count} ${plural(frame.count, "body", "bodies")} of `, who(me),
      ", which no longer keeps ",
      end - was === 1 ? `data ${was}` : `data ${was} to ${end - 1}`, " for it."] :
    [who(me), " knew already that ", who(from), ` has accepted ${was}: nothing changes.`];
  return { lead: [who(me), ` takes count ${frame.count} from `, who(from), "."],
    lines: [{ word: "link", tone: "", body }] };
}

function storyOfDrop(event, old) {
  const { frame, process: me } = event, from = frame.sender;
  const wanted = old.expected[from], isOld = frame.number < wanted;
  return {
    lead: [who(me), ` takes data ${frame.number} from `, who(from),
      isOld ? " again, and drops it." : " too early, and drops it."],
    lines: [{ word: "why", tone: "block", body: isOld ?
      ["It was accepted before: ", who(me), ` expects data ${wanted} next. A repeated frame changes nothing.`] :
      [who(me), ` still lacks data ${wanted}. What comes from one process is accepted in order, so `, who(from),
        " has to put this again later."] }],
  };
}

function storyOfTick(run, event) {
  const again = event.puts.length > 0;
  return {
    lead: [who(event.process), again ? " puts again what isn't acknowledged." : " has nothing to put again."],
    lines: [{ word: "why", tone: "", body: [again ?
      "Nobody knows whether these frames were lost or are only late: a repeated one does no harm." :
      run.processes > 1 ? "Every body that it queued is acknowledged." : "There is nobody else."] }],
  };
}

function whyClear(run, event, stamp, isFirstOfEvent) {
  if (!isFirstOfEvent) return ["The next one, and clear too. "];
  if (run.processes === 1) return ["There is no other process to wait for. "];
  if (run.processes > 2) {
    return ["The least held, and every other process has been heard at ", code(stampText(stamp)), " or above. "];
  }
  const other = event.process === 0 ? 1 : 0, time = event.state.heard[other];
  return ["The least held, and ", who(other), " has been heard at ", code(stampText({ time, process: other })),
    time === stamp.time && other === stamp.process ? ", the cast itself" : ", not below it", ". "];
}

function deliveryLines(run, event, old) {
  const copy = new Map(old.copy);
  return event.delivered.map((stamp, i) => {
    const operation = run.operationOf(stamp), { first } = operation;
    const register = run.registers.indexOf(operation.register), before = copy.get(register) || "0";
    const wrote = writes(operation, before);
    if (wrote) copy.set(register, operation.value);
    const effect = wrote ? [": ", code(operation.register), ` was ${before}, is now ${operation.value}. `] :
      operation.kind === "read" ? [": a read changes nothing. "] :
      [": ", code(operation.register), ` is ${before}, not ${operation.expected}, so nothing changes. `];
    const where = first.at !== event.at ?
      [who(run.events[first.at].process), ` was first, at event ${first.at}; place ${first.place} here too.`] :
      [strong("First delivery anywhere: "), `place ${first.place} of the ` +
        (run.isRealTime ? "order, and its linearization point." : "one order of casts.")];
    return { word: "delivers", tone: "deliver", body: [castPart(stamp, operation.text), ...effect,
      ...whyClear(run, event, stamp, i === 0), ...where] };
  });
}

function heldLines(run, event) {
  const { state, process: me, call, take } = event;
  const isCall = call !== null && call.castTime !== null;
  const body = take && take.accepted && take.put.frame.kind !== "count" ? take.put.frame : null;
  if (!state.held.length || !(isCall || body || event.delivered.length)) return [];
  const least = state.held[0];
  const fresh = body && body.kind === "cast" ? { time: body.time, process: body.sender } :
    isCall ? { time: call.castTime, process: me } : null;
  const isSame = (a, b) => a.time === b.time && a.process === b.process;
  const why = whyHeld(run, state, me, least);
  if (fresh && isSame(fresh, least)) return [hold([castPart(least), " can't be delivered yet: ", ...why, "."])];
  if (fresh && state.held.some(stamp => isSame(stamp, fresh))) {
    return [hold([castPart(fresh), " stands after ", castPart(least), " in the queue, which can't be delivered yet: ",
      ...why, "."])];
  }
  return [hold([castPart(least, run.operationOf(least).text), " is the least held, and can't be delivered yet: ",
    ...why, "."])];
}
const hold = body => ({ word: "holds", tone: "block", body });

function answerLines(run, event) {
  const { answered, call } = event;
  if (!answered) return [];
  const source = sourceOf(run, answered), isWrite = answered.kind === "write";
  const lines = [];
  if (answered !== call) {
    const seen = isWrite ? ["."] : [", what ", code(answered.register), " holds at its place in the order",
      ...(source ? [", written by ", namePart(source)] : source === null ? [": nobody wrote it before"] : []), "."];
    lines.push(answers(["its own ", opPart(answered), ": ", strong(answered.answer.text), ...seen,
      answered.castTime === null ? " The last own cast is delivered, so the held read is answered now." : ""]));
  } else if (answered.kind === "read" && answered.castTime === null) {
    lines.push(answers([strong(answered.answer.text), " at once", ", from the copy: ",
      ...(source ? ["written by ", namePart(source)] : ["nobody's write is in it"]), "."]));
  } else {
    const seen = isWrite || source === undefined ? ["."] :
      source ? [", written by ", namePart(source), "."] : [", which nobody wrote before", "."];
    lines.push(answers([strong(answered.answer.text), " at once", ...seen]));
  }
  const ahead = run.order.filter(c => c.at <= event.at).length, place = answered.readPlace;
  if (place !== null && place < ahead) {
    const missed = run.order[place];
    lines.push({ word: "misses", tone: "block", body: [who(event.process),
      ` has delivered ${place} of the ${ahead} casts that somebody has delivered. `, castPart(missed, missed.op.text),
      " is missing, so the read stands before it in the order."] });
  }
  return lines;
}
const answers = body => ({ word: "answers", tone: "answer", body });

function turnedLines(run, at) {
  const pairKey = ([newer, older]) => newer.key + " " + older.key;
  const before = new Set(turnedAt(run, at - 1).map(pairKey));
  const turned = turnedAt(run, at).filter(pair => !before.has(pairKey(pair)));
  const lines = turned.slice(0, 3).map(([newer, older]) => ({ word: "older", tone: "block", body: [
    namePart(newer), " ", code(newer.text), " now stands before ", namePart(older), " ", code(older.text),
    " in the order. In real time it is the other way round: ", namePart(older),
    ` was answered at event ${older.answer.at}, before the call of `, namePart(newer), ` at event ${newer.call}.`] }));
  if (turned.length > 3) {
    lines.push({ word: "older", tone: "block", body: [`And ${turned.length - 3} more such pairs.`] });
  }
  return lines;
}

function putLines(run, event) {
  if (!event.puts.length) return [];
  const kinds = new Map();
  for (const { frame, to } of event.puts) {
    const text = frameText(frame);
    if (!kinds.has(text)) kinds.set(text, { frame, to: [] });
    kinds.get(text).to.push(to);
  }
  const told = [...kinds.values()].map(({ frame, to }) => {
    const stamp = { time: frame.time, process: event.process };
    const what = frame.kind === "count" ? [`count ${frame.count}`] :
      frame.kind === "ack" ? ["acknowledgement ", code(stampText(stamp))] : ["cast ", castPart(stamp)];
    return [...what, " to ", ...(to.length === run.processes - 1 && run.processes > 3 ? ["all others"] : some(to))];
  });
  return [{ word: "puts", tone: "", body: [...listed(told), "."] }];
}

/* elements */
const byId = id => document.getElementById(id);

function fill(element, attributes, kids) {
  for (const [name, value] of Object.entries(attributes || {})) {
    if (value === null || value === undefined) continue;
    if (name === "style") element.style.cssText = value;
    else element.setAttribute(name, value);
  }
  element.append(...kids.flat(9).filter(kid => kid !== null && kid !== undefined && kid !== false));
  return element;
}
const html = (tag, attributes, ...kids) => fill(document.createElement(tag), attributes, kids);
const svg = (tag, attributes, ...kids) => fill(document.createElementNS("http://www.w3.org/2000/svg", tag),
  attributes, kids);

const madeIn = new WeakMap();

function renew(element, kids) {
  const old = madeIn.get(element) || new Map();
  const made = new Map(kids.map(([says, make]) => [says, old.get(says) || make()]));
  const stays = new Set(made.values());
  for (const kid of [...element.children]) if (!stays.has(kid)) kid.remove();
  let next = element.firstChild;
  for (const kid of stays) {
    if (kid === next) next = next.nextSibling;
    else element.insertBefore(kid, next);
  }
  madeIn.set(element, made);
  return element;
}

const hue = process => "c" + process % 8;
const whoTag = process => html("span", { class: "who " + hue(process) }, "p" + process);
const none = text => html("span", { class: "none" }, text);

function chip(process, key, text) {
  return html("button", { type: "button", class: "chip " + hue(process), "data-op": key }, text);
}
const opChip = (operation, text = operation.text) => chip(operation.process, operation.key, text);
function castChip(run, stamp, text = "") {
  const operation = run.operationOf(stamp);
  return chip(stamp.process, operation ? operation.key : null, stampText(stamp) + (text ? " " + text : ""));
}

function shown(run, part) {
  if (Array.isArray(part)) return part.map(inner => shown(run, inner));
  if (typeof part === "string") return part;
  if (part.part === "who") return whoTag(part.process);
  if (part.part === "code") return html("code", {}, part.text);
  if (part.part === "strong") return html("b", {}, part.text);
  if (part.part === "cast") return castChip(run, part.stamp, part.op);
  return opChip(part.op, part.text);
}

/* layout */
const LETTER = 6.95; // the width of a letter of the diagram
const textWidth = text => text.length * LETTER;
const shortAnswer = text => text.replace("value ", "");
function pillText({ castTime, process, kind, register, value, expected }) {
  const stamp = stampText({ time: castTime, process }).replace(" ", "");
  const told = kind === "read" ? `read ${register}` : expected === null ? `${register}=${value}` :
    `${register}:${expected}\u2192${value}`;
  return `${stamp} ${told}`;
}

function layOut(run, roomy, room, ahead = 0, beside = null) {
  let [low, high] = beside?.step ? [beside.step, beside.step] : roomy ? [44, 150] : [20, 34];
  const placesBy = step => placesOver(columns(beside ? [run, beside.run] : [run], roomy, step), run, roomy, ahead);
  while (low < high) {
    const middle = low + high + 1 >> 1;
    if (placesBy(middle).width <= room) low = middle;
    else high = middle - 1;
  }
  const places = placesBy(low);
  places.width = Math.max(places.width, room);
  return places;
}

function placesOver({ xs, right, step }, run, roomy, ahead) {
  const ys = [];
  let y = run.isRealTime ? (roomy ? 40 : 24) : (roomy ? 6 : 4);
  for (let p = 0; p < run.processes; p++) {
    const most = Math.max(0, ...run.eventsOf[p].map(k => run.events[k].delivered.length));
    y += roomy ? (run.processes < 4 ? 64 : 54) : 18;
    ys.push(y);
    y += roomy ? (most ? 26 : 18) + 19 * most : 9;
  }
  const last = xs.length ? xs[xs.length - 1] : (roomy ? 26 : 14) - step,
    end = Math.max(last + (roomy ? 22 : 12), right);
  const below = roomy ? Math.max(y + 24, ys[ys.length - 1] + 66) : y + 8; // four lines stand at the left of a process
  return { run, roomy, step, xs, ys, end, width: Math.max(last + 30, right, end + ahead) + 14, height: below };
}

function columns(runs, roomy, step) {
  const reaches = runs.map(run => new Reach(run)), xs = [], count = Math.max(...runs.map(run => run.events.length));
  let x = roomy ? 26 : 14;
  for (let at = 0; at < count; at++) {
    if (roomy) {
      x = Math.max(x, ...reaches.map(reach => reach.leastAt(at)));
      for (const reach of reaches) reach.take(at, x);
    }
    xs.push(x);
    x += step;
  }
  return { xs, step, right: Math.max(...reaches.map(({ right }) => right)) };
}

class Reach {
  constructor(run) {
    this.run = run;
    this.above = Array(run.processes).fill(0);
    this.below = Array(run.processes).fill(0);
    this.right = 0;
  }

  leastAt(at) {
    const event = this.run.events[at];
    if (!event) return 0;
    return Math.max(textAbove(event) ? this.above[event.process] + 9 : 0,
      event.delivered.length ? this.below[event.process] + 15 : 0);
  }

  take(at, x) {
    const event = this.run.events[at];
    if (!event) return;
    const { process, delivered } = event, text = textAbove(event);
    if (text) this.right = Math.max(this.right, this.above[process] = x - 9 + textWidth(text) + 12);
    if (!delivered.length) return;
    const pills = delivered.map(stamp => pillText(/** @type {Operation} */ (this.run.operationOf(stamp))));
    this.right = Math.max(this.right, this.below[process] = x + 1 + Math.max(...pills.map(textWidth)));
  }
}

function textAbove({ call, answered }) {
  if (call) return call.text + (answered === call ? " \u2192 " + shortAnswer(answered.answer.text) : "");
  return answered ? "\u2192 " + shortAnswer(answered.answer.text) : "";
}

const halfStep = roomy => roomy ? 15 : 8;
const nodeRadius = roomy => roomy ? 10 : 4.5;
const barTop = (places, process) => places.ys[process] - (places.roomy ? 29 : 10);

function lineBehind({ xs, roomy }, at) {
  return at < 0 ? xs.length ? xs[0] - halfStep(roomy) - 4 : 0 : xs[at] + halfStep(roomy);
}

const curveAt = ([x1, y1], [cx, cy], [x2, y2], t) =>
  [(1 - t) * (1 - t) * x1 + 2 * t * (1 - t) * cx + t * t * x2,
    (1 - t) * (1 - t) * y1 + 2 * t * (1 - t) * cy + t * t * y2];

function bendOf(places, put, before, [x1, y1], [x2, y2]) {
  const { run, roomy, xs, ys } = places;
  const middle = [(x1 + x2) / 2, (y1 + y2) / 2], low = Math.min(put.from, put.to), high = Math.max(put.from, put.to);
  if (!roomy || high - low < 2) return middle;
  const length = Math.hypot(x2 - x1, y2 - y1), across = [(y2 - y1) / length, (x1 - x2) / length];
  let best = middle, most = -1;
  for (const off of [0, 26, -26, 48, -48]) {
    const bent = [middle[0] + across[0] * off, middle[1] + across[1] * off];
    let near = 99;
    for (let j = put.at + 1; j < before; j++) {
      const p = run.events[j].process;
      if (p <= low || p >= high) continue;
      for (let i = 1; i < 12; i++) {
        const [bx, by] = curveAt([x1, y1], bent, [x2, y2], i / 12);
        near = Math.min(near, Math.hypot(bx - xs[j], by - ys[p]));
      }
    }
    if (near > most + 3) [most, best] = [near, bent];
    if (near > 18) break;
  }
  return best;
}

/* arrows */
function tipPath(x, y, angle, size) {
  const c = Math.cos(angle), n = Math.sin(angle);
  const at = (u, v) => `${(x + u * c - v * n).toFixed(1)} ${(y + u * n + v * c).toFixed(1)}`;
  return `M${at(0, 0)}L${at(-size, size * .48)}L${at(-size, -size * .48)}Z`;
}

function curveOf(places, put, before, end, radiusAtEnd) {
  const { roomy, xs, ys } = places, start = [xs[put.at], ys[put.from]];
  const size = roomy ? (put.frame.kind === "cast" ? 10 : 8) : 6;
  const middle = bendOf(places, put, before, start, end);
  const out = Math.atan2(middle[1] - start[1], middle[0] - start[0]),
    angle = Math.atan2(end[1] - middle[1], end[0] - middle[0]);
  const r = nodeRadius(roomy) + 1.5;
  const first = [start[0] + r * Math.cos(out), start[1] + r * Math.sin(out)];
  const last = [end[0] - radiusAtEnd * Math.cos(angle), end[1] - radiusAtEnd * Math.sin(angle)];
  const neck = [last[0] - (size - 1) * Math.cos(angle), last[1] - (size - 1) * Math.sin(angle)];
  const text = point => point.map(v => v.toFixed(1)).join(" ");
  return {
    path: `M${text(first)}Q${text(middle)} ${text(neck)}`,
    tip: tipPath(last[0], last[1], angle, size),
    at: t => curveAt(first, middle, last, t),
  };
}

function takenArrow(places, event, curves) {
  const { put, accepted, nth } = event.take, { kind } = put.frame, { roomy, xs, ys, run } = places;
  const curve = curveOf(places, put, event.at, [xs[event.at], ys[put.to]], nodeRadius(roomy) + 1.5);
  curves.set(event.at, curve);
  const operation = run.operationIn(put.frame), [mx, my] = curve.at(.72);
  return svg("g", { class: `arrow f-${kind} ${hue(put.from)}`, "data-frame": event.at,
    "data-op": operation ? operation.key : null },
    svg("path", { class: "hit", d: curve.path }),
    svg("path", { class: kind, d: curve.path }),
    svg("path", { class: "tip" + (accepted ? "" : " hollow"), d: curve.tip }),
    nth > 0 && roomy ? [svg("circle", { class: "again", cx: mx, cy: my, r: 9 }),
      svg("text", { class: "rank", x: mx, y: my + 3.6, style: "fill:var(--c)" }, nth + 1 + "\u00d7")] : null);
}

function stubGroups(run, event, lost) {
  const groups = new Map();
  for (const put of lost) {
    const way = run.processes > 4 ? (put.to > event.process ? "+" : "-") : "," + put.to;
    const id = put.frame.kind + way;
    if (!groups.has(id)) groups.set(id, []);
    groups.get(id).push(put);
  }
  return [...groups.values()];
}

const stubKey = lost => lost.map(put => put.to + "." + put.place).join(" ");

function stubsOf(places, event, lost) {
  const { roomy, xs, ys, run } = places;
  let up = 0, down = 0;
  return stubGroups(run, event, lost).map(puts => {
    const [put] = puts, { kind } = put.frame, below = put.to > event.process, i = below ? down++ : up++;
    const angle = (below ? 1 : -1) * (roomy ? [.5, .18, .85, .05][Math.min(i, 3)] : .7);
    const r = nodeRadius(roomy) + 1, length = roomy ? 15 + 3 * i : 5, c = roomy ? 3 : 1.8;
    const x1 = xs[event.at] + r * Math.cos(angle), y1 = ys[event.process] + r * Math.sin(angle);
    const x2 = x1 + length * Math.cos(angle), y2 = y1 + length * Math.sin(angle);
    const operation = run.operationIn(put.frame);
    return svg("g", {
      class: `stub f-${kind} ${hue(put.from)}`,
      "data-lost": event.at + ":" + stubKey(puts.slice(0, 6)) + ":" + puts.length,
      "data-op": operation ? operation.key : null,
    },
    svg("path", { class: "hit", d: `M${x1} ${y1}L${x2} ${y2}` }),
    svg("path", { class: kind, d: `M${x1.toFixed(1)} ${y1.toFixed(1)}L${x2.toFixed(1)} ${y2.toFixed(1)}` }),
    svg("path", { class: "cross",
      d: `M${x2 - c} ${y2 - c}l${2 * c} ${2 * c}M${x2 + c} ${y2 - c}l${-2 * c} ${2 * c}` }));
  });
}

/* nodes */
function eventNode(places, event) {
  const { xs, ys, roomy, run } = places, x = xs[event.at], y = ys[event.process];
  const group = svg("g", { class: `ev ${hue(event.process)}`, "data-ev": event.at });
  const isTick = event.text.startsWith("tick");
  if (!roomy) {
    group.append(isTick ? svg("rect", { class: "node", x: x - 4, y: y - 4, width: 8, height: 8 }) :
      svg("circle", { class: "node", cx: x, cy: y, r: 4 }));
    group.append(...event.delivered.slice(0, 6).map((stamp, i) => svg("rect", {
      class: "pill " + hue(stamp.process), "data-op": run.operationOf(stamp).key, style: "fill:var(--c)",
      x: x - 8 + 3.4 * i, y: y + 6, width: 2.4, height: 5,
    })));
    return group;
  }
  const { call, answered } = event, operation = call || answered;
  if (operation) {
    const answer = answered && answered === operation ?
      svg("tspan", { class: "done" }, (call ? " " : "") + "\u2192 " + shortAnswer(answered.answer.text)) : "";
    group.append(svg("text", { class: "halo", x: x - 9, y: y - 36, "data-op": operation.key }, call ? call.text : null,
      answer));
  }
  const width = Math.max(20, textWidth(String(event.clock)) + 8);
  group.append(
    svg("rect", { class: "node" + (event.take && !event.take.accepted ? " none" : ""), x: x - width / 2, y: y - 10,
      width, height: 20,
      rx: isTick ? 2 : 10 }),
    svg("text", { class: "time", x, y: y + 4 }, String(event.clock)),
    ...event.delivered.map((stamp, i) => deliveryPill(run.operationOf(stamp), x - 9, y + 22 + 19 * i)));
  return group;
}

function deliveryPill(operation, x, y) {
  const text = pillText(operation), width = textWidth(text) + 8;
  return svg("g", { class: hue(operation.process) },
    svg("rect", { class: "pill", "data-op": operation.key, x, y, width, height: 16, rx: 4 }),
    svg("text", { class: "pilltext", x: x + width / 2, y: y + 12, "data-op": operation.key }, text));
}

function operationBar(places, operation) {
  const bar = svg("rect", { class: `bar ${hue(operation.process)}`, "data-op": operation.key,
    x: barStart(places, operation),
    y: barTop(places, operation.process), height: places.roomy ? 7 : 4, rx: 2 });
  stretchBar(bar, places, operation);
  return bar;
}

function stretchBar(bar, places, operation) {
  const { xs, roomy, width } = places, { answer } = operation, end = answer ? xs[answer.at] + (roomy ? 9 : 4) : width;
  bar.classList.toggle("open", answer === null);
  bar.setAttribute("width", end - barStart(places, operation));
}

const barStart = ({ xs, roomy }, { call }) => xs[call] - (roomy ? 9 : 4);

/* points */
const diamond = (key, x, top, size) => svg("path", { class: "diamond", "data-op": key,
  d: `M${x} ${top}l${size} ${size}l${-size} ${size}l${-size} ${-size}Z` });

function drawPoints(places) {
  const { run, roomy, xs } = places, lane = roomy ? 22 : 13, size = roomy ? 9 : 4.5, small = roomy ? 6 : 3.5;
  const atEvent = new Map();
  for (const { at } of run.points) atEvent.set(at, (atEvent.get(at) || 0) + 1);
  const had = new Map();
  return run.points.map(({ op, at }, place) => {
    const nth = had.get(at) || 0;
    had.set(at, nth + 1);
    const x = xs[at] + (nth - (atEvent.get(at) - 1) / 2) * (roomy ? 17 : 6),
      bar = barTop(places, op.process) + (roomy ? 3.5 : 2);
    const since = isUpdate(op) ? at : op.answer.at; // a read stands in the order once it is answered
    const group = svg("g", { class: `ev ${hue(op.process)}`, "data-ev": since },
      diamond(op.key, x, lane - size, size), diamond(op.key, xs[at], bar - small, small));
    if (roomy) {
      group.append(svg("text", { class: "rank", x, y: lane + 3.5 }, String(op.first.place)));
      const label = op.wrote ? `${op.register}=${op.value}` : shortAnswer(op.answer ? op.answer.text : "");
      const next = run.points[place + 1], space = next ? xs[next.at] - x - (next.at === at ? 0 : 30) : 99;
      const text = { class: "halo lane", x: x + 13, y: lane + 4, "data-op": op.key };
      if (textWidth(label) < space) group.append(svg("text", text, label));
    }
    return { since, group, plumb: svg("line", { class: "plumb", x1: x, y1: lane + size, x2: xs[at], y2: bar - 6 }) };
  });
}

/* diagram */
const KINDS = ["cast", "ack", "count", "lost"];
const LAYERS = ["band", "ticks", "rails", "plumbs", "bars", "stubs", "arrows", "veil", "ghosts", "flight", "nodes",
  "points", "now", "ends", "overlay"];

function gutterWidth(run, roomy) {
  const longest = Math.max(...run.shownRegisters.slice(0, 2).map(r => `${run.registers[r]} = `.length + 6));
  return roomy ? Math.max(92, 34 + 7 * longest) : 128;
}

const SPARE = 2000;

function update(element, attributes) {
  for (const [name, value] of Object.entries(attributes)) {
    if (element.getAttribute(name) !== String(value)) element.setAttribute(name, value);
  }
}

function cut(elements, from) {
  for (const element of elements.splice(from)) if (element) element.remove();
}

class Diagram {
  constructor(drawAhead = null, box = byId("diagram")) {
    this.drawAhead = drawAhead;
    this.box = box;
    [this.axisBox, this.gutter, this.inner] = ["axis", "gutter", "inner"].map(part => box.querySelector("." + part));
    this.beside = null; // of a run that has the same axis: `run`, and its `step` if it stands already
    this.onDrawn = () => {};
    this.isStub = () => true; // whether a frame that no event takes is drawn as lost
    this.roomy = true;
    this.ahead = 0;
    this.places = null;
  }

  draw(run) {
    const room = this.box.clientWidth - this.gutterWidth(run) - 2;
    const places = layOut(run, this.roomy, room, this.ahead, this.beside);
    const hidden = new Set(KINDS.filter(kind => !byId("show-" + kind).checked));
    for (const kind of KINDS) this.box.classList.toggle("hide-" + kind, hidden.has(kind));
    const kept = this.keptEvents(run, places, hidden);
    Object.assign(this, { run, places, hidden });
    if (kept === 0) this.begin();
    this.cutTo(kept);
    for (const event of run.events.slice(kept)) this.addEvent(event);
    this.drawBars();
    this.drawStubs();
    this.drawPoints();
    this.drawEnds();
    this.fit();
    this.box.classList.toggle("hide-point", !this.roomy);
    this.onDrawn();
  }

  gutterWidth(run) {
    return Math.max(...[run, this.beside?.run || run].map(one => gutterWidth(one, this.roomy)));
  }

  keptEvents(run, places, hidden) {
    const old = this.places, shape = it => [it.roomy, it.height, ...it.ys].join();
    if (!old || shape(old) !== shape(places) || [...hidden].join() !== [...this.hidden].join()) return 0;
    const same = run.sharedWith(old.run), moved = places.xs.findIndex((x, at) => at >= same || x !== old.xs[at]);
    return Math.max(0, moved < 0 ? same : Math.min(moved, same));
  }

  begin() {
    const { run } = this;
    this.nodes = [];
    this.arrows = [];
    this.axisTexts = [];
    this.stubs = [];
    this.bars = new Map();
    this.curves = new Map();
    this.band = svg("rect", { class: "band", y: 0 });
    this.ticks = svg("path", { class: "tick" });
    this.veil = svg("rect", { class: "veil", y: 0 });
    this.nowLine = svg("line", { class: "nowline", y1: 0 });
    this.rails = this.places.ys.map(y => svg("line", { class: "rail", x1: 0, y1: y, y2: y }));
    if (run.isRealTime) this.rails.unshift(this.memoryRail());
    this.layers = Object.fromEntries(LAYERS.map(name => [name, svg("g")]));
    this.layers.band.append(this.band);
    this.layers.ticks.append(this.ticks);
    this.layers.rails.append(...this.rails);
    this.layers.veil.append(this.veil);
    this.layers.now.append(this.nowLine);
    this.drawing = svg("svg", { role: this.drawAhead ? "group" : "img" },
      svg("g", { id: this.box.id + "-art" }, Object.values(this.layers)));
    this.inner.replaceChildren(this.drawing);
    this.axisMark = svg("rect", { y: 4, height: 18, rx: 9, fill: "var(--now)" });
    this.axisNumber = svg("text", { class: "at", y: 17 }); // of an event that has none in a crowd
    this.axis = svg("svg", { height: 26, "aria-hidden": "true" }, this.axisMark, this.axisNumber);
    this.axisBox.replaceChildren(this.axis);
    this.drawGutter();
  }

  memoryRail() {
    const y = this.roomy ? 22 : 13;
    return svg("line", { class: "rail", style: "stroke:var(--point);stroke-width:1", x1: 0, y1: y, y2: y });
  }

  cutTo(kept) {
    for (const list of [this.nodes, this.arrows, this.axisTexts]) cut(list, kept);
    for (const { elements } of this.stubs.splice(kept)) cut(elements, 0);
    for (const at of this.curves.keys()) if (at >= kept) this.curves.delete(at);
    for (const [key, { call, element }] of this.bars) {
      if (call < kept) continue;
      element.remove();
      this.bars.delete(key);
    }
    this.rowAt = this.rowAt.map(at => at === null || at >= kept ? null : at);
  }

  addEvent(event) {
    const { places, layers } = this, { xs, roomy } = places, { at } = event, x = xs[at];
    const isDrawn = event.take && !this.hidden.has(event.frame.kind), hasText = roomy || at % 5 === 0;
    const add = (list, layer, element) => {
      list.push(element);
      if (element) layer.append(element);
    };
    add(this.nodes, layers.nodes, eventNode(places, event));
    add(this.arrows, layers.arrows, isDrawn ? takenArrow(places, event, this.curves) : null);
    add(this.axisTexts, this.axis, hasText ? svg("text", { x, y: 17, "data-ev": at }, String(at)) : null);
  }

  drawBars() {
    const { run, places, bars } = this;
    for (const operation of run.operations) {
      const bar = bars.get(operation.key);
      if (bar) stretchBar(bar.element, places, operation);
      else {
        const element = operationBar(places, operation);
        this.layers.bars.append(element);
        bars.set(operation.key, { element, call: operation.call });
      }
    }
  }

  drawStubs() {
    if (this.hidden.has("lost")) return;
    for (const event of this.run.events) {
      const lost = event.puts.filter(put => !put.takes.length && this.isStub(put)), key = stubKey(lost),
        old = this.stubs[event.at];
      if (old && old.key === key) continue;
      if (old) cut(old.elements, 0);
      const elements = stubsOf(this.places, event, lost);
      this.layers.stubs.append(...elements);
      this.stubs[event.at] = { key, elements };
    }
  }

  drawPoints() {
    this.points = this.run.isRealTime ? drawPoints(this.places) : [];
    this.layers.plumbs.replaceChildren(...this.points.map(({ plumb }) => plumb));
    this.layers.points.replaceChildren(...this.points.map(({ group }) => group));
  }

  drawEnds() {
    const { ghosts, ends } = this.layers, ahead = this.drawAhead ? this.drawAhead(this.places) :
      { lines: [], ends: [] };
    ghosts.replaceChildren(...ahead.lines);
    const stays = ends.childElementCount === ahead.ends.length && ahead.ends.every(group => group.parentNode === ends);
    if (!stays) ends.replaceChildren(...ahead.ends); // what stays keeps the focus
  }

  fit() {
    const { run, places, drawing } = this, { height } = places, width = Math.ceil(places.width / SPARE) * SPARE;
    const shape = `${run.processes} ${plural(run.processes, "process", "processes")}, ` +
      `${run.events.length} ${plural(run.events.length, "event")}`;
    update(drawing, { width, height, viewBox: `0 0 ${width} ${height}`,
      "aria-label": shape + ". What each event does is told below." });
    update(this.axis, { width });
    this.inner.style.width = places.width + "px";
    update(this.band, { height });
    update(this.ticks, { d: places.xs.slice(0, run.events.length).map(x => `M${x} 0V${height - 4}`).join("") });
    update(this.veil, { height, width });
    update(this.nowLine, { y2: height });
    for (const rail of this.rails) update(rail, { x2: width });
  }

  drawGutter() {
    const { places: { ys, height, roomy, run }, gutter } = this;
    gutter.replaceChildren();
    gutter.style.height = height + "px";
    gutter.style.width = this.gutterWidth(run) + "px";
    if (run.isRealTime) {
      gutter.append(html("div", { class: "row", style: `top:${roomy ? 13 : 4}px` },
        html("span", { class: "small", style: "color:var(--point)" }, roomy ? "one memory" : "order")));
    }
    this.rows = ys.map((y, p) => html("div", { class: "row " + hue(p), style: `top:${y - (roomy ? 10 : 9)}px` }));
    this.rowAt = ys.map(() => null);
    gutter.append(...this.rows);
  }

  show(at) {
    const { places, run } = this, { xs, roomy } = places;
    this.nodes.forEach((node, i) => {
      node.classList.toggle("future", i > at);
      node.classList.toggle("current", i === at);
    });
    for (const { since, group } of this.points) group.classList.toggle("future", since > at);
    const x = lineBehind(places, at), half = halfStep(roomy), markWidth = at > 99 ? 30 : 24;
    update(this.veil, { x });
    update(this.band, { x: at < 0 ? -99 : xs[at] - half, width: at < 0 ? 0 : 2 * half });
    update(this.nowLine, { x1: x, x2: x });
    update(this.axisMark, { x: at < 0 ? -99 : xs[at] - markWidth / 2, width: markWidth });
    this.axisTexts.forEach((text, i) => text && text.classList.toggle("at", i === at));
    this.axisNumber.textContent = at >= 0 && !this.axisTexts[at] ? String(at) : "";
    if (at >= 0) update(this.axisNumber, { x: xs[at] });
    const flying = run.events.filter(event => this.curves.has(event.at) && event.at > at && event.take.put.at <= at);
    this.layers.flight.replaceChildren(...flying.map(event => this.flying(event, x)));
    this.rows.forEach((row, p) => this.showRow(row, p, at));
    const turned = new Set(turnedAt(run, at).flat());
    for (const operation of run.operations) {
      this.bars.get(operation.key).element.classList.toggle("turned", turned.has(operation));
    }
  }

  flying(event, x) {
    const { at: curve } = this.curves.get(event.at);
    let low = 0, high = 1;
    for (let i = 0; i < 20; i++) {
      const middle = (low + high) / 2;
      if (curve(middle)[0] < x) low = middle;
      else high = middle;
    }
    const [cx, cy] = curve(low);
    return svg("circle", { class: `flying f-${event.frame.kind} ${hue(event.take.put.from)}`, cx, cy,
      r: this.places.roomy ? 4.5 : 3 });
  }

  showRow(row, process, at) {
    const { run } = this, last = run.lastEventOf(process, at);
    row.classList.toggle("acting", at >= 0 && run.events[at].process === process);
    if (this.rowAt[process] === last) return;
    this.rowAt[process] = last;
    const state = run.stateAt(process, at), clock = String(run.clockAt(process, at)), held = state.held.length;
    const small = (...kids) => html("span", { class: "small" }, ...kids);
    row.replaceChildren();
    if (!this.places.roomy) {
      fill(row, {}, [whoTag(process), " ", small(clock + (held ? ` \u00b7 ${held} held` : ""))]);
      return;
    }
    const running = run.runningAt(process, at), registers = run.shownRegisters;
    fill(row, {}, [whoTag(process), " ", small("clock ", html("b", {}, clock)), html("br"),
      small(...registers.slice(0, 2).flatMap((r, i) => [i ? ", " : "", `${run.registers[r]} = `,
        html("b", {}, state.copy.get(r) || "0")]),
        registers.length > 2 ? " \u2026" : ""), html("br"),
      running ? [small(running.text + " .."), html("br")] : "", small(held ? `holds ${held}` : "")]);
  }

  reveal(at) {
    const { box, gutter, places: { xs, ys } } = this, view = box.clientWidth - gutter.offsetWidth;
    const isEnd = this.drawAhead && at === this.run.last;
    const x = at < 0 ? 0 : xs[at];
    if (isEnd) box.scrollLeft = 1e6;
    else if (x < box.scrollLeft + 60 || x > box.scrollLeft + view - 140) box.scrollLeft = Math.max(0, x - view * .6);
    if (at < 0) return;
    const y = ys[this.run.events[at].process];
    const isSeen = y >= box.scrollTop + 30 && y <= box.scrollTop + box.clientHeight - 60;
    if (!isSeen) box.scrollTop = Math.max(0, y - box.clientHeight / 2);
  }

  sheets() {
    const { xs, ys, width, height, roomy } = this.places, each = roomy ? 1000 : 1400, sheets = [];
    const art = svg("use", { href: `#${this.box.id}-art` });
    for (let x = 0; x < width; x += each) {
      const w = Math.min(each, Math.max(width - x, Math.min(each, 700)));
      const numbers = xs.map((at, k) => at >= x - 5 && at < x + w && (roomy || k % 5 === 0) ?
        svg("text", { x: at, y: -6, "text-anchor": "middle", style: "fill:var(--soft);font-size:11px" }, String(k)) :
          null);
      const names = ys.map((y, p) =>
        svg("text", { x: x - 42, y: y + 4, style: "font-weight:700", class: hue(p), fill: "var(--c)" }, "p" + p));
      sheets.push(svg("svg", { viewBox: `${x - 46} -20 ${w + 50} ${height + 20}` }, art.cloneNode(),
        svg("rect", { x: x - 46, y: -20, width: 40, height: height + 20, fill: "var(--page)" }), numbers, names));
    }
    return sheets;
  }
}

/* story */
function storyNodes(run, at) {
  const event = at >= 0 ? run.events[at] : null, story = storyOf(run, at);
  const title = event ? ["Event ", String(at), html("code", { class: "words" }, event.text)] :
    "Before the first event";
  return [html("h2", {}, title), html("p", { class: "lead" }, shown(run, story.lead)),
    event && event.note ? html("p", { class: "note" }, event.note) : "",
    html("ul", { class: "why" }, story.lines.map(({ word, tone, body }) =>
      html("li", { class: tone }, html("span", {}, word), html("div", {}, shown(run, body)))))];
}

/* theme */
class Theme {
  constructor() {
    this.chosen = null;
    this.system = matchMedia("(prefers-color-scheme: dark)");
    this.system.addEventListener("change", () => this.paint());
    byId("theme").onclick = () => this.choose(document.documentElement.dataset.theme === "dark" ? "light" : "dark");
    this.paint();
  }

  choose(theme) {
    this.chosen = theme;
    this.paint();
  }

  paint() {
    document.documentElement.dataset.theme = this.chosen || (this.system.matches ? "dark" : "light");
  }

  print(diagram) {
    let before = null;
    addEventListener("beforeprint", () => {
      before = this.chosen;
      this.choose("light");
      byId("slices").replaceChildren(...diagram.sheets());
    });
    addEventListener("afterprint", () => {
      this.choose(before);
      byId("slices").replaceChildren();
    });
  }
}

/* cards */
const mark = (changed, ...kids) => changed ? html("span", { class: "changed" }, ...kids) : kids;
const term = (name, title = null) => html("dt", { title }, name);
const joined = (items, separator = ", ") => items.map((item, i) => [i ? separator : "", item]);

class Cards {
  constructor() {
    this.pinned = null;
    this.lines = null; // the lines of the table, and for which last event and mark each was made
    this.madeFor = [];
  }

  setRun(run) {
    const same = this.run ? run.sharedWith(this.run) : -1;
    this.run = run;
    if (same < 0) this.lines = null;
    this.madeFor = this.madeFor.map(made => made.last < same ? made : { last: -1, sign: "old" }); // of other events
    if (this.pinned !== null && this.pinned >= run.processes) this.pinned = null;
  }

  pin(process, at) {
    this.pinned = this.pinned === process ? null : process;
    this.show(at);
  }

  show(at) {
    const box = byId("cards"), all = [...Array(this.run.processes).keys()];
    if (all.length <= 6) {
      box.replaceChildren(html("div", { class: "cards" }, all.map(p => this.card(p, at))));
      return;
    }
    const acting = at >= 0 ? this.run.events[at].process : 0;
    if (!this.lines) this.makeTable(box, all);
    const open = new Set([acting, this.pinned === null ? acting : this.pinned]);
    box.firstChild.replaceChildren(...[...open].map(p => this.card(p, at)));
    for (const p of all) { // only the lines that differ
      const isActing = p === acting && at >= 0;
      const last = this.run.lastEventOf(p, at);
      const sign = (isActing ? "acting " : "") + (this.pinned === p ? "pinned" : "");
      if (last === this.madeFor[p].last && sign === this.madeFor[p].sign) continue;
      const line = this.tableLine(p, at, isActing);
      this.lines[p].replaceWith(line);
      this.lines[p] = line;
      this.madeFor[p] = { last, sign };
    }
  }

  makeTable(box, all) {
    this.lines = all.map(p => this.tableLine(p, -1, false));
    this.madeFor = all.map(() => ({ last: -1, sign: "" }));
    const head = html("tr", {}, html("th", { style: "width:3.9em" }, ""),
      html("th", { class: "n", style: "width:3.6em" }, "clock"),
      html("th", {}, "copy"), html("th", { style: "width:7em" }, "runs"),
      html("th", { class: "n", style: "width:3.6em" }, "holds"),
      html("th", {}, "least held waits for"));
    box.replaceChildren(html("div", { class: "cards" }),
      html("p", { class: "fine" }, "All processes. Press a line to keep its card open."),
      html("div", { class: "box", tabindex: 0, role: "region", "aria-label": "All processes" },
        html("table", { class: "fixed" }, html("thead", {}, head), html("tbody", {}, this.lines))));
  }

  tableLine(process, at, isActing) {
    const { run } = this, state = run.stateAt(process, at), running = run.runningAt(process, at), least = state.held[0];
    const blockers = least ? run.blockersOf(state, process, least) : [];
    const copy = run.shownRegisters.slice(0, 4).map(r => `${run.registers[r]}=${state.copy.get(r) || "0"}`).join(" ");
    const pin = html("button", { type: "button", class: "chip " + hue(process), "data-pin": process,
      "aria-pressed": String(this.pinned === process) }, "p" + process);
    const waits = least ? [castChip(run, least), " ", none(blockers.length > 2 ? blockers.length + " processes" :
      blockers.map(r => "p" + r).join(", "))] : none("\u2013");
    return html("tr", { class: `pick ${hue(process)}` + (isActing ? " acting" : ""), "data-pin": process },
      html("td", {}, pin), html("td", { class: "n" }, String(run.clockAt(process, at))),
      html("td", { class: "mono" }, copy),
      html("td", { class: "mono" }, running ? running.text : ""), html("td", { class: "n" }, String(state.held.length)),
      html("td", {}, waits));
  }

  card(process, at) {
    const { run } = this, isActing = at >= 0 && run.events[at].process === process;
    const state = run.stateAt(process, at), old = isActing ? run.stateAt(process, at - 1) : state;
    const clock = run.clockAt(process, at), oldClock = isActing ? run.clockAt(process, at - 1) : clock;
    const others = [...Array(run.processes).keys()].filter(r => r !== process);
    const copy = joined(run.shownRegisters.slice(0, 24).map(r => {
      const value = state.copy.get(r) || "0";
      return mark(value !== (old.copy.get(r) || "0"), `${run.registers[r]} = ${value}`);
    }));
    const parts = [term("copy"), html("dd", { class: "mono" }, copy), term("runs"),
      html("dd", {}, this.runs(process, at, state))];
    if (others.length) parts.push(term("heard"), html("dd", {}, this.heard(state, old, others)));
    parts.push(term("holds"), html("dd", {}, this.holds(process, state, old, others)));
    if (others.length) {
      parts.push(term("kept", "bodies kept until they are acknowledged"),
        html("dd", {}, this.kept(state, old, others)));
    }
    return html("article", { class: `card ${hue(process)}` + (isActing ? " acting" : ""),
      "aria-label": `process ${process}` },
      html("h3", {}, whoTag(process),
        html("span", {}, "clock ",
          mark(clock !== oldClock, clock !== oldClock ? `${oldClock} \u2192 ${clock}` : String(clock))),
        html("span", { class: "run" }, `delivered ${state.delivered}`)),
      html("dl", {}, parts));
  }

  runs(process, at, state) {
    const running = this.run.runningAt(process, at);
    if (!running) return none("nothing");
    const waits = state.running[0] === "held" ? ["waits for its own casts"] :
      ["waits for its cast", " ", html("code", {}, stampText({ time: state.running[1], process }))];
    return [opChip(running), html("span", { class: "wait" }, waits)];
  }

  heard(state, old, others) {
    const one = r => mark(state.heard[r] !== old.heard[r], whoTag(r),
      state.heard[r] ? " at " + state.heard[r] : " \u2013");
    if (others.length <= 8) return joined(others.map(one));
    const heard = others.filter(r => state.heard[r]);
    return [`${heard.length} of ${others.length}` + (heard.length ? ": " : ""), joined(heard.map(one))];
  }

  holds(process, state, old, others) {
    const { run } = this;
    if (!state.held.length) return none("nothing");
    const items = state.held.slice(0, 12).map(stamp => {
      const blockers = run.blockersOf(state, process, stamp);
      const isFresh = !old.held.some(s => s.time === stamp.time && s.process === stamp.process);
      const one = r => {
        const heard = stampText({ time: state.heard[r], process: r });
        return blockers.includes(r) ? html("span", { class: "no nowrap" },
          `p${r} ${state.heard[r] ? "at " + heard : "not heard"} \u2717 `) :
          html("span", { class: "yes nowrap" }, `p${r} at ${heard} \u2713 `);
      };
      return html("li", {}, mark(isFresh, castChip(run, stamp, run.operationOf(stamp).text)),
        html("span", { class: "wait" }, others.length <= 5 ? others.map(r => [one(r), " "]) :
          ["waits for ", shown(run, some(blockers, 4))]));
    });
    const more = state.held.length - 12;
    return html("ol", { class: "queue" }, items, more > 0 ? html("li", { class: "none" }, `and ${more} more`) : null);
  }

  kept(state, old, others) {
    const owed = new Map();
    for (const r of others) {
      const from = state.acknowledged[r];
      if (from < state.queued) owed.set(from, [...owed.get(from) || [], r]);
    }
    if (!owed.size) return none(state.queued ? "nothing: all acknowledged" : "nothing queued");
    const isNew = r => old.acknowledged[r] !== state.acknowledged[r] || old.queued !== state.queued;
    const last = state.queued - 1;
    return joined([...owed].map(([from, rs]) =>
      [mark(rs.some(isNew), from === last ? `data ${from}` : `data ${from}\u2013${last}`),
      " for ", rs.length === others.length && others.length > 1 ? "all others" : shown(this.run, some(rs, 4))]), "; ");
  }
}

/* lists */
const empty = text => html("p", { class: "empty" }, text);
const number = text => html("td", { class: "n" }, text);
const mono = (...kids) => html("td", { class: "mono" }, ...kids);
const headOf = cells => html("thead", {},
  html("tr", {}, cells.map(([text, cls]) => html("th", { class: cls || null }, text))));

function showTable(box, cells, rows) {
  const says = cells.flat().join();
  let table = box.querySelector("table");
  if (table?.dataset.says !== says) {
    table = html("table", { "data-says": says }, cells.length ? headOf(cells) : null, html("tbody"));
    box.replaceChildren(table);
  }
  renew(table.lastChild, rows);
}

function effectOn(memory, operation) {
  const { kind, register, value, expected } = operation, was = memory.get(register) || "0";
  if (kind === "read") return `sees ${was}`;
  if (!writes(operation, was)) return `is ${was}, not ${expected}`;
  memory.set(register, value);
  return kind === "write" ? `${register} = ${value}` : `was ${was}, ${register} = ${value}`;
}

function turnedMarks(run, at) {
  const marks = new Map();
  for (const [newer, older] of turnedAt(run, at)) {
    if (!marks.has(newer)) marks.set(newer, `\u2191 before the older ${older.name}`);
    if (!marks.has(older)) marks.set(older, `\u2193 after the newer ${newer.name}`);
  }
  return marks;
}

function orderNote(run, list, before, marks) {
  const isOld = ({ op }) => before.has(op.key);
  const inserted = list.find((ranked, i) => !isOld(ranked) && list.slice(i + 1).some(isOld));
  if (inserted) {
    return `${inserted.op.name} is new, and stands before older ones: this order need not follow the events.`;
  }
  if (marks.size) {
    return "The marked operations stand otherwise than in real time: one was answered before the other was called.";
  }
  return "Each operation answers as one memory would, one after another" +
    (run.isRealTime ? "; its point lies between its call and its answer." : ", in each process's own order.");
}

function showOrder(run, at, later) {
  const box = byId("order"), marks = turnedMarks(run, at), list = witnessAt(run, at), memory = new Map();
  const before = at >= 0 ? new Set(witnessAt(run, at - 1).map(({ op }) => op.key)) : new Set();
  const rows = list.map(({ op, rank }, i) => {
    const place = String(run.isRealTime ? rank[0] : i), effect = effectOn(memory, op), mark = marks.get(op) || "";
    const open = op.answer && op.answer.at <= at ? "" : " (open)", point = op.first ? "\u25c6 " + op.first.at : "";
    const fresh = before.has(op.key) ? "" : " fresh";
    return [[place, op.key, op.text, effect, open, mark, point, fresh].join(), () => html("tr",
      { class: "line " + hue(op.process) + fresh, "data-op": op.key },
      number(place), html("td", {}, opChip(op, op.name)), html("td", { class: "mono nowrap" }, op.text),
      mono(effect, open ? none(open) : "", mark ? html("span", { class: "turned" }, mark) : ""),
      run.isRealTime ? html("td", { class: "n nowrap" }, point) : null)];
  });
  const head = [[run.isRealTime ? "place" : "#", "n"], [""], ["operation"], ["memory"],
    ...(run.isRealTime ? [["point", "n"]] : [])];
  if (rows.length) showTable(box, head, rows);
  else box.replaceChildren(empty("Nothing yet."));
  byId("order-fine").textContent = orderNote(run, list, before, marks);
  later(() => {
    const fresh = box.querySelector("tr.fresh");
    box.scrollTop = fresh ? Math.max(0, fresh.offsetTop - 120) : 1e6;
  });
}

function showHistory(run, at, later) {
  const box = byId("history");
  const row = (k, op, what, text) => [[k, op.key, what, text, k === at].join(), () =>
    html("tr", { class: "line " + hue(op.process) + (k === at ? " fresh" : ""), "data-op": op.key },
    number(String(k)), html("td", {}, opChip(op, op.name)), html("td", {}, what), mono(text))];
  const rows = run.events.slice(0, at + 1).flatMap(({ at: k, call, answered }) => [
    ...(call ? [row(k, call, "call", call.text)] : []),
    ...(answered ? [row(k, answered, "answer", answered.answer.text)] : []),
  ]);
  if (rows.length) showTable(box, [["event", "n"], [""], ["entry"], [""]], rows);
  else box.replaceChildren(empty("Nothing yet."));
  later(() => {
    box.scrollTop = 1e6;
  });
}

function showWires(run, at) {
  const next = at < run.last && run.events[at + 1].take ? run.events[at + 1].take.put : null, most = 40;
  const untaken = run.untakenAt(at).sort((a, b) => (b === next) - (a === next));
  const rows = untaken.slice(0, most).map(put => {
    const operation = run.operationIn(put.frame), key = operation ? operation.key : null;
    const take = `take ${put.from} ${put.to} ${put.place}`;
    const frame = frameText(put.frame).replace("acknowledgement", "ack");
    const taken = put === next ? "next" : put.takes.length ? "at " + put.takes[0] : at < run.last ? "never" : "";
    return [[take, frame, taken, key].join(), () => html("tr", { class: "line " + hue(put.from), "data-op": key },
      html("td", { class: "mono nowrap" }, take), mono(frame), number(taken))];
  });
  const nothing = run.puts.some(put => put.at <= at) ? "Every frame that was put has been taken." :
    "No frame was put yet.";
  const box = byId("wires"), more = untaken.length > most ? [empty(`and ${untaken.length - most} more`)] : [];
  if (!rows.length) return box.replaceChildren(empty(nothing));
  showTable(box, [], rows);
  while (box.lastChild !== box.firstChild) box.lastChild.remove();
  box.append(...more);
}

/* tips */
const tipLine = (...kids) => html("li", {}, ...kids);
const boldTag = text => html("b", {}, text);
const codeTag = text => html("code", {}, text);

function operationTip(run, operation) {
  const { answer, call, castTime, first, process, number, point } = operation, source = sourceOf(run, operation);
  const place = run.witness.findIndex(([p, i]) => p === process && i === number);
  const answered = answer ? [answer.at === call ? "answered at once: " : `answered at event ${answer.at}: `,
    boldTag(answer.text)] :
    "not answered in this run";
  const cast = castTime === null ? ["not cast: answered from the copy"] :
    ["cast ", codeTag(`(${castTime}, ${process})`),
    first ? `, delivered first at event ${first.at} by p${run.events[first.at].process}` : ", delivered nowhere"];
  const turned = turnedAt(run, run.last).filter(pair => pair.includes(operation)).slice(0, 3).map(([newer, older]) =>
    tipLine(newer === operation ? `stands before ${older.name} in the order, which was answered before its call` :
      `stands after ${newer.name} in the order, which was called after its answer`));
  return [boldTag(operation.name), " ", codeTag(operation.text), html("ul", {},
    tipLine(`called at event ${call}, `, answered), tipLine(...cast),
    tipLine(place >= 0 ? `number ${place} of the order of the whole run` :
      "not in the order of the run: nobody saw it"),
    point !== null ? tipLine(`linearization point: event ${point}`) : null, ...turned,
    source ? tipLine("reads ", boldTag(source.name), " ", codeTag(source.text)) :
      source === null ? tipLine("reads the 0 that was there at first") : null)];
}

function takenTip(event) {
  const { put, accepted, nth } = event.take;
  return [codeTag(frameText(put.frame)),
    html("ul", {}, tipLine(`p${put.from} put it at event ${put.at}, p${put.to} takes it at event ${event.at}`),
    accepted ? null : tipLine("dropped there"), nth ? tipLine(`taken before, at event ${put.takes[0]}`) : null)];
}

function lostTip(run, told) {
  const [at, list, count] = told.split(":"), [to, place] = list.split(" ")[0].split(".");
  const put = run.putBy.get(`${run.events[at].process},${to},${place}`);
  return [codeTag(frameText(put.frame)), html("ul", {},
    tipLine(`put at event ${at} to ` + (count > 1 ? `${count} processes` : `p${put.to}`) +
      ", and never taken in this run"))];
}

function wireTip(put) {
  return put ? [codeTag(`take ${put.from} ${put.to} ${put.place}`), html("ul", {}, tipLine(frameText(put.frame)),
    tipLine(`p${put.from} put it at event ${put.at}; click: p${put.to} takes it; with Shift: it is left lost`))] : null;
}

class Tips {
  constructor(diagram) {
    this.diagram = diagram;
    this.lit = null;
    this.box = byId("tip");
    document.addEventListener("mouseover", event => this.point(event.target, event.clientX, event.clientY));
    document.addEventListener("mousemove", event => {
      if (!this.box.hidden) this.place(event.clientX, event.clientY);
    });
    document.addEventListener("focusin", ({ target }) => {
      const { left, bottom } = target.getBoundingClientRect();
      if (target.matches(":focus-visible")) this.point(target, left, bottom - 12);
    });
    document.addEventListener("focusout", () => this.clear());
    document.addEventListener("scroll", () => this.box.hidden = true, true);
  }

  clear() {
    this.box.hidden = true;
    this.light(null);
  }

  place(x, y) {
    const { width, height } = this.box.getBoundingClientRect();
    this.box.style.left = Math.max(8, Math.min(innerWidth - width - 8, x + 14)) + "px";
    this.box.style.top = (y + 18 + height > innerHeight ? Math.max(8, y - height - 12) : y + 18) + "px";
  }

  point(target, x, y) {
    const { run } = this.diagram, element = target.closest?.("[data-op],[data-frame],[data-lost],[data-put]");
    if (!element || !run || ![null, this.diagram.box].includes(element.closest(".diagram"))) {
      this.clear();
      return;
    }
    const key = element.getAttribute("data-op"), { frame, lost, put } = element.dataset;
    const operation = run.operationBy.get(key);
    const kids = frame !== undefined ? takenTip(run.events[frame]) : lost !== undefined ? lostTip(run, lost) :
      put !== undefined ? wireTip(run.putBy.get(put)) : operation ? operationTip(run, operation) : null;
    this.light(operation ? key : null);
    if (!key) {
      element.classList.add("lit");
      this.lit = undefined;
    }
    if (!kids) return;
    this.box.replaceChildren(...kids.flat(3).filter(kid => kid !== null));
    this.box.hidden = false;
    this.place(x, y);
  }

  light(key) {
    if (key === this.lit) return;
    const { run, places } = this.diagram, { overlay } = this.diagram.layers;
    document.querySelectorAll(".lit").forEach(element => element.classList.remove("lit"));
    overlay.replaceChildren();
    this.lit = key;
    byId("diagram").classList.toggle("dim", key !== null);
    if (key === null) return;
    const markAll = (k, what) => document.querySelectorAll(`${what}[data-op="${CSS.escape(k)}"]`).forEach(e =>
      e.classList.add("lit"));
    markAll(key, "");
    const operation = run.operationBy.get(key), source = operation ? sourceOf(run, operation) : null;
    if (!source) return;
    const x1 = places.xs[source.first.at], y1 = barTop(places, source.process) + 3;
    const x2 = places.xs[operation.answer ? operation.answer.at : operation.call],
      y2 = barTop(places, operation.process) + 3, top = Math.min(y1, y2) - 26;
    overlay.append(svg("path", { class: "source", d: `M${x1} ${y1}C${x1} ${top},${x2} ${top},${x2} ${y2}` }));
    markAll(source.key, ".bar");
  }
}

/* view */
const FRONTS = {
  linear: "every operation is cast and answered at its delivery: linearizable",
  "local-read": "reads are answered from the copy: sequentially consistent",
  "local-write": "writes are answered at once, reads wait for the own writes: sequentially consistent",
};

const LAWFUL = "not the one of the text, and lawful: sequentially consistent";

const MANY_EVENTS = 100; // a run that has so many more or fewer is another one

class View {
  constructor({ drawAhead = null, onShow = () => {} } = {}) {
    this.onShow = onShow;
    this.at = -1;
    this.timer = null;
    this.waiting = [];
    this.diagram = new Diagram(drawAhead);
    this.cards = new Cards();
    this.tips = new Tips(this.diagram);
    this.listen();
  }

  setRun(run) {
    this.chooseLook(run);
    this.run = run;
    byId("slider").max = run.last;
    this.cards.setRun(run);
    this.tips.clear();
    this.diagram.draw(run);
  }

  showHead() {
    const { run } = this, names = run.registers.slice(0, 8).join(", ") +
      (run.registers.length > 8 ? ` and ${run.registers.length - 8} more` : "");
    const bold = text => html("b", {}, text);
    if (run.title) byId("title").textContent = document.title = run.title;
    byId("facts").replaceChildren(bold(`${run.processes} ${plural(run.processes, "process", "processes")}`),
      ` \u00b7 ${plural(run.registers.length, "register")} `, bold(names), " \u00b7 front end ", bold(run.startedBy),
      `: ${FRONTS[run.startedBy] || LAWFUL} \u00b7 `,
      bold(`${run.events.length} ${plural(run.events.length, "event")}`));
    byId("key-point").hidden = !run.isRealTime;
  }

  chooseLook(run) {
    const { run: old } = this;
    if (old && old.processes === run.processes && Math.abs(old.events.length - run.events.length) < MANY_EVENTS) return;
    this.diagram.roomy = run.processes <= 8 && run.events.length <= 160;
    byId("roomy").checked = this.diagram.roomy;
    const { processes, events } = run, isCrowded = processes > 6 || events.length > 60;
    for (const kind of KINDS) {
      const box = byId("show-" + kind);
      box.checked = !(kind === "lost" && processes > 10 || kind === "count" && isCrowded);
    }
  }

  later(look) {
    if (!this.waiting.length) {
      requestAnimationFrame(() => {
        const looks = this.waiting;
        this.waiting = [];
        looks.forEach(one => one());
      });
    }
    this.waiting.push(look);
  }

  show(at, isQuiet = false) {
    const { run } = this, later = look => this.later(look);
    this.at = at = Math.max(-1, Math.min(run.last, at));
    this.diagram.show(at);
    byId("story").replaceChildren(...storyNodes(run, at));
    this.cards.show(at);
    showOrder(run, at, later);
    showHistory(run, at, later);
    showWires(run, at);
    this.showSchedule();
    this.showControls(at);
    this.later(() => this.diagram.reveal(at));
    this.tips.light(null);
    this.onShow(at, isQuiet);
  }

  showSchedule() {
    if (byId("text").open) byId("schedule").value = this.run.scheduleAt(this.at);
  }

  showControls(at) {
    const { run } = this, { last } = run, slider = byId("slider");
    slider.value = at;
    slider.setAttribute("aria-valuetext", at < 0 ? "before the first event" : `event ${at}: ${run.events[at].text}`);
    byId("where").textContent = at < 0 ? last >= 0 ? `start / ${last}` : "no events" : `event ${at} / ${last}`;
    byId("first").disabled = byId("back").disabled = at < 0;
    byId("next").disabled = byId("last").disabled = at >= last;
  }

  play(isOn) {
    clearInterval(this.timer);
    this.timer = null;
    if (isOn) {
      if (this.at >= this.run.last) this.show(-1);
      this.timer = setInterval(() => this.at >= this.run.last ? this.play(false) : this.show(this.at + 1),
        this.run.last >= 100 ? 500 : 1400);
    }
    byId("play").textContent = isOn ? "Pause" : "Play";
    byId("play").setAttribute("aria-label", isOn ? "Pause" : "Play");
    byId("story").setAttribute("aria-live", isOn ? "off" : "polite");
  }

  go(at) {
    this.play(false);
    this.show(at);
  }

  stepped(by, isOwn) {
    if (!isOwn || this.at < 0) return this.at + by;
    const own = this.run.eventsOf[this.run.events[this.at].process], i = own.indexOf(this.at) + by;
    return i < 0 || i >= own.length ? this.at : own[i];
  }

  redraw() {
    this.diagram.draw(this.run);
    this.show(this.at, true);
  }

  listen() {
    byId("slider").addEventListener("input", event => this.go(+event.target.value));
    const jumps = { first: () => -1, back: () => this.at - 1, next: () => this.at + 1, last: () => this.run.last };
    for (const [id, to] of Object.entries(jumps)) byId(id).onclick = () => this.go(to());
    byId("play").onclick = () => this.play(!this.timer);
    for (const kind of KINDS) {
      byId("show-" + kind).onchange = () => this.redraw();
    }
    byId("roomy").onchange = ({ target }) => {
      this.diagram.roomy = target.checked;
      byId("diagram").classList.toggle("smooth", target.checked);
      this.redraw();
    };
    byId("text").addEventListener("toggle", () => this.showSchedule());
    document.addEventListener("click", event => this.clicked(event));
    document.addEventListener("keydown", event => this.pressed(event));
    let resized = 0;
    addEventListener("resize", () => {
      clearTimeout(resized);
      resized = setTimeout(() => this.run && this.redraw(), 150);
    });
  }

  clicked({ target, clientX }) {
    const pin = target.closest("[data-pin]"), at = target.closest("[data-ev]"),
      chip = target.closest(".panels [data-op]");
    if (pin && !target.closest("[data-op]")) this.cards.pin(+pin.dataset.pin, this.at);
    else if (at) this.go(+at.dataset.ev);
    else if (chip) this.reach(this.run.operationBy.get(chip.dataset.op));
    else {
      const drawing = target.closest("#inner svg,#axis svg"), { xs } = this.diagram.places || { xs: [] };
      if (!drawing || !xs.length) return;
      const x = clientX - drawing.getBoundingClientRect().left;
      this.go(xs.reduce((best, v, i) => Math.abs(v - x) < Math.abs(xs[best] - x) ? i : best, 0));
    }
  }

  reach(operation) {
    if (!operation) return;
    const x = this.diagram.places.xs[operation.call], box = byId("diagram");
    if (x < box.scrollLeft || x > box.scrollLeft + box.clientWidth - 120) box.scrollLeft = x - 120;
  }

  pressed(event) {
    if (event.ctrlKey || event.metaKey || event.altKey || event.defaultPrevented || !this.run) return;
    if (event.target.closest("textarea,select,input:not([type=range]):not([type=checkbox]),dialog")) return;
    const to = { ArrowRight: () => this.stepped(1, event.shiftKey), ArrowLeft: () => this.stepped(-1, event.shiftKey),
      Home: () => -1, End: () => this.run.last }[event.key];
    if (to) {
      event.preventDefault();
      this.go(to());
    } else if (event.key === "p") this.play(!this.timer);
    else if (event.key === "Escape") this.tips.clear();
  }
}

/* page */
const run = new Run(JSON.parse(byId("data").textContent));
let addressed = 0;
const view = new View({ onShow: writeAddress });
const theme = new Theme();

function writeAddress(at, isQuiet) {
  clearTimeout(addressed);
  if (isQuiet) return;
  addressed = setTimeout(() => {
    try {
      history.replaceState(null, "", "#event=" + (at < 0 ? "start" : at));
    } catch (_) { /* a page on paper has no address */ }
  }, 200);
}

function readAddress() {
  const event = /event=(start|\d+)/.exec(location.hash), operation = /op=(\d+\.\d+)/.exec(location.hash);
  const asked = /theme=(dark|light)/.exec(location.hash);
  if (asked) theme.choose(asked[1]);
  view.show(event ? event[1] === "start" ? -1 : +event[1] : 0, true);
  if (operation && run.operationBy.has(operation[1])) view.tips.light(operation[1]);
}

view.setRun(run);
view.showHead();
theme.print(view.diagram);
readAddress();
addEventListener("hashchange", readAddress);
requestAnimationFrame(() => byId("diagram").classList.toggle("smooth", view.diagram.roomy));

})();
</script>
</body>
</html>
"##;
